ghost use Rattle.std.specs.Prelude.{ℕ, ◌≡◌, ◌<◌, true, IsTrue, IfOk};
ghost use Rattle.tag_pool.specs.Tags.{is_out};

use crate::{TagPool, Take};
use mid_base::{DevAddr, NoMemory, Tag};
use std::alloc::Global;

const FIRST: DevAddr = DevAddr {
    channel: 0,
    target: 0,
    lun: 0,
};

const SECOND: DevAddr = DevAddr {
    channel: 0,
    target: 0,
    lun: 1,
};

const UNKNOWN: DevAddr = DevAddr {
    channel: 0,
    target: 1,
    lun: 0,
};

// Whether the device is given this tag; what was out stays out.
fn takes(pool: &mut TagPool, dev: DevAddr, tag: u16) -> bool
    ensures out { IsTrue result → is_out tag pool.new.tags ≡ true }
    ensures kept { (k : ℕ) → is_out k pool.old.tags ≡ true → is_out k pool.new.tags ≡ true }
{
    pool.take(dev) == Take::Tag(Tag(tag))
}

// Whether the device is given these tags in their order.
fn takes_each(pool: &mut TagPool, dev: DevAddr, count: u16) -> bool
    ensures { IsTrue result → (k : ℕ) → k < count → is_out k pool.new.tags ≡ true }
{
    for tag in 0..count {
        if !takes(pool, dev, tag) {
            return false;
        }
    }
    true
}

// Whether the device is refused so; what was out stays out.
fn refuses(pool: &mut TagPool, dev: DevAddr, why: Take) -> bool
    ensures { (k : ℕ) → is_out k pool.old.tags ≡ true → is_out k pool.new.tags ≡ true }
{
    pool.take(dev) == why
}

// Gives the tags below this number back.
fn give_each(pool: &mut TagPool, count: u16)
    requires { (k : ℕ) → k < count → is_out k pool.old.tags ≡ true }
{
    for tag in 0..count {
        pool.give(Tag(tag));
    }
}

#[test]
fn depths_fall_when_full_and_rise_after_four_goods(rt: HostRuntime) {
    let Ok(mut pool) = TagPool::new(rt.alloc(), 16, &[(FIRST, 8), (SECOND, 1)]) else {
        assert!(rt; false, "room for two devices");
        return;
    };
    assert!(rt; takes_each(&mut pool, FIRST, 8));
    assert!(rt; refuses(&mut pool, FIRST, Take::DeviceFull(8)));
    pool.full_seen(FIRST);
    assert_eq!(rt; pool.depth(FIRST), 7);
    pool.give(Tag(0));
    assert!(rt; refuses(&mut pool, FIRST, Take::DeviceFull(7)));
    pool.give(Tag(1));
    assert!(rt; takes(&mut pool, FIRST, 0));
    pool.good_seen(FIRST);
    pool.good_seen(FIRST);
    pool.good_seen(FIRST);
    assert_eq!(rt; pool.depth(FIRST), 7);
    pool.good_seen(FIRST);
    assert_eq!(rt; pool.depth(FIRST), 8);
    assert!(rt; takes(&mut pool, SECOND, 1));
    pool.full_seen(SECOND);
    assert_eq!(rt; pool.depth(SECOND), 1);
}

#[test]
fn a_host_with_one_tag_is_full_after_it(rt: HostRuntime) {
    let Ok(mut pool) = TagPool::new(rt.alloc(), 1, &[(FIRST, 8), (SECOND, 1)]) else {
        assert!(rt; false, "room for one tag");
        return;
    };
    assert_eq!(rt; pool.take(UNKNOWN), Take::DeviceFull(0));
    assert_eq!(rt; pool.take(SECOND), Take::Tag(Tag(0)));
    assert_eq!(rt; pool.take(SECOND), Take::HostFull(1));
    assert_eq!(rt; pool.take(FIRST), Take::HostFull(1));
    assert_eq!(rt; pool.depth(UNKNOWN), 0);
}

// Three goods, a full answer that leaves the depth as it is, and one more good: that is the fourth.
#[test]
fn a_full_that_changes_nothing_starts_no_count(rt: HostRuntime) {
    let Ok(mut pool) = TagPool::new(rt.alloc(), 4, &[(FIRST, 3)]) else {
        assert!(rt; false, "room for one device");
        return;
    };
    pool.full_seen(FIRST);
    assert_eq!(rt; pool.depth(FIRST), 1);
    pool.good_seen(FIRST);
    pool.good_seen(FIRST);
    pool.good_seen(FIRST);
    pool.full_seen(FIRST);
    assert_eq!(rt; pool.depth(FIRST), 1);
    pool.good_seen(FIRST);
    assert_eq!(rt; pool.depth(FIRST), 2);
}

fn wide_pool(alloc: Global) -> Result<TagPool, NoMemory> {
    TagPool::new(alloc, 1_024, &[(FIRST, 1_024)])
}

#[test]
fn a_thousand_tags_go_out_and_come_back(rt: HostRuntime) {
    let Ok(mut pool) = wide_pool(rt.alloc()) else {
        assert!(rt; false, "room for 1,024 tags");
        return;
    };
    assert!(rt; takes_each(&mut pool, FIRST, 1_024));
    assert!(rt; refuses(&mut pool, FIRST, Take::HostFull(1_024)));
    give_each(&mut pool, 1_024);
    assert!(rt; takes_each(&mut pool, FIRST, 1_024));
}

#[test]
fn a_device_has_room_while_a_tag_is_free_and_its_depth_allows(rt: HostRuntime) {
    let Ok(mut pool) = TagPool::new(rt.alloc(), 2, &[(FIRST, 1), (SECOND, 2)]) else {
        assert!(rt; false, "memory for two tags");
        return;
    };
    assert!(rt; pool.can_take(FIRST) && pool.can_take(SECOND) && !pool.can_take(UNKNOWN));
    assert!(rt; takes(&mut pool, FIRST, 0));
    assert!(rt; !pool.can_take(FIRST) && pool.can_take(SECOND));
    assert!(rt; takes(&mut pool, SECOND, 1));
    assert!(rt; !pool.can_take(SECOND));
}
