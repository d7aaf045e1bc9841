ghost use Rattle.std.specs.Prelude.{◌≡◌, ◌≤◌, ◌++◌, sum, length, replicate, drop};

use crate::{BlockStore, for_each_part, parts};

// One more than the number of the last block of the greatest store.
const MOST: u32 = 4_294_967_295;

// A block, and one beside it that is within the greatest store.
const PLACES: [(u32, u32); 6] = [
    (0, 1),
    (1, 0),
    (255, 256),
    (2_147_483_647, 2_147_483_648),
    (2_147_483_648, 2_147_483_647),
    (4_294_967_294, 4_294_967_293),
];

#[test]
fn a_written_block_is_read_back_and_its_neighbour_is_zeros(rt: HostRuntime) {
    for (place, beside) in PLACES {
        assert!(rt; place < MOST && beside < MOST);
        let mut store = BlockStore::new(rt.alloc(), MOST);
        let mut block = [0xee; 512];
        store.read_into(place, &mut block);
        assert!(rt; block == [0; 512], "{place} before");
        assert!(rt; store.write_from(place, &[0x5a; 512]).is_ok(), "{place}");
        store.read_into(place, &mut block);
        assert!(rt; block == [0x5a; 512], "{place} after");
        store.read_into(beside, &mut block);
        assert!(rt; block == [0; 512], "{beside} beside {place}");
        assert_eq!(rt; store.blocks(), MOST);
    }
}

#[test]
fn of_two_runs_of_256_blocks_that_meet_the_later_stays(rt: HostRuntime) {
    let earlier = [7; 131_072];
    let later = [9; 131_072];
    let mut store = BlockStore::new(rt.alloc(), 1024);
    assert!(rt; store.write_from(100, &earlier).is_ok());
    assert!(rt; store.write_from(228, &later).is_ok());
    let mut block = [0xee; 512];
    for (place, byte) in [
        (99, 0),
        (100, 7),
        (227, 7),
        (228, 9),
        (355, 9),
        (356, 9),
        (483, 9),
        (484, 0),
    ] {
        assert!(rt; place < 1024);
        store.read_into(place, &mut block);
        assert!(rt; block == [byte; 512], "{place}");
    }
}

#[test]
fn a_run_keeps_the_order_of_its_blocks(rt: HostRuntime) {
    let mut run = [200; 2048];
    run[512..1024].fill(201);
    run[1024..1536].fill(202);
    run[1536..].fill(203);
    let mut store = BlockStore::new(rt.alloc(), 6);
    let mut read = [0xee; 2048];
    assert!(rt; store.write_from(2, &run).is_ok());
    store.read_into(2, &mut read);
    assert_eq!(rt; read, run);
    assert!(rt; store.write_from(6, &[]).is_ok());
    let mut block = [0xee; 512];
    store.read_into(1, &mut block);
    assert!(rt; block == [0; 512]);
    store.read_into(4, &mut block);
    assert!(rt; block == [202; 512]);
}

// What a buffer of eight zeros holds once each of these parts of it was filled with its number, counted from 1.
fn filled(lens: &[u32]) -> [u8; 8]
    requires { sum lens.now ≤ 8 }
{
    let mut buffer = [0; 8];
    let mut number = 0u8;
    for part in parts(&mut buffer, lens) {
        number = number.wrapping_add(1);
        part.fill(number);
    }
    buffer
}

// The same, by calls at the parts.
fn filled_by_calls(lens: &[u32]) -> [u8; 8]
    requires { sum lens.now ≤ 8 }
{
    let mut buffer = [0; 8];
    let mut number = 0u8;
    for_each_part(&mut buffer, lens, |part| {
        number = number.wrapping_add(1);
        part.fill(number);
    });
    buffer
}

// What the buffer holds afterwards follows from what `for_each_part` ensures.
fn fill_with_ones(buf: &mut [u8], lens: &[u32])
    requires { sum lens.now ≤ length buf.old }
    ensures { buf.new ≡ replicate (sum lens.now) 1 ++ drop (sum lens.now) buf.old }
{
    for_each_part(
        buf,
        lens,
        |part: &mut [u8]|
            ensures { part.new ≡ replicate (length part.old) 1 }
        { part.fill(1) },
    );
}

#[test]
fn bytes_behind_the_parts_stay(rt: HostRuntime) {
    let mut buffer = [7; 6];
    fill_with_ones(&mut buffer, &[1, 0, 3]);
    assert_eq!(rt; buffer, [1, 1, 1, 1, 7, 7]);
}

fn both_fill(lens: &[u32], bytes: [u8; 8]) -> bool
    requires { sum lens.now ≤ 8 }
{
    filled(lens) == bytes && filled_by_calls(lens) == bytes
}

#[test]
fn what_is_written_to_a_part_stands_at_its_place(rt: HostRuntime) {
    assert!(rt; both_fill(&[], [0, 0, 0, 0, 0, 0, 0, 0]));
    assert!(rt; both_fill(&[0], [0, 0, 0, 0, 0, 0, 0, 0]));
    assert!(rt; both_fill(&[8], [1, 1, 1, 1, 1, 1, 1, 1]));
    assert!(rt; both_fill(&[3, 2], [1, 1, 1, 2, 2, 0, 0, 0]));
    assert!(rt; both_fill(&[7, 1], [1, 1, 1, 1, 1, 1, 1, 2]));
    assert!(rt; both_fill(&[8, 0, 0], [1, 1, 1, 1, 1, 1, 1, 1]));
    assert!(rt; both_fill(&[0, 3, 0, 0, 5, 0], [2, 2, 2, 5, 5, 5, 5, 5]));
    assert!(rt; both_fill(&[1, 1, 1, 1, 1, 1, 1, 1], [1, 2, 3, 4, 5, 6, 7, 8]));
}
