ghost use Rattle.std.specs.Prelude.{◌≡◌, ◌≢◌, ◌+◌};
ghost use Rattle.host_words.specs.Carried.{carried};

use crate::View;
use atomic_table::Seat;

/// A seat at a host's table: what one thread calls with. It has no bytes. Contracts speak of what it knows as `view seat`.
///
/// A seat that is dropped keeps its share, so `close` can't be called afterwards; one that is dropped in its turn also
/// keeps all others waiting.
#[derive(Drop)]
pub struct HostSeat<S> {
    pub(crate) seat: Seat<Option<S>, View>,
    ghost carries: { seat.me.1 ≡ carried {S = S} seat.me.0.stage },
    ghost has_share: { seat.me.0.share ≢ 0 },
    ghost fits_table: { seat.me.0.tags + 2 ≡ seat.table_id.words },
}
