// A seat of a desk answers the requests that come through a door.
use crate::desk::Desk;
use crate::replies::{answer_read, read_by};
use crate::seat::Seat;
use bp_doors::{Answered, Handler};
use bp_keep::Keeper;
use bp_outside::Enough;
use bp_web::{MAX_REQUEST, RouteTable, enough};
use std::alloc::Global;
use std::snapshot::Snapshot;
use std::sync::Wait;

// Calls at a seat of a desk, since this moment, read by these routes, if there was memory for them.
#[derive(Drop)]
pub(crate) struct SeatHandler<'a, K: Keeper, R> {
    pub(crate) desk: &'a Desk<K>,
    pub(crate) rt: &'a R,
    pub(crate) start: Snapshot<Seat<K>>,
    pub(crate) routes: Option<RouteTable>,
}

// A request is read until it is whole, or none can come.
impl<'a, K: Keeper, R> Enough for SeatHandler<'a, K, R> {
    ghost use Rattle.bp_web.specs.declared.requests.TheConstants.{MAX_REQUEST};
    ghost use Rattle.bp_desk.specs.Served.{TellsRequest};

    ghost Tells = { λ _ bytes answer. TellsRequest bytes answer };

    ghost limit = { λ _. MAX_REQUEST };

    fn enough(&self, bytes: &[u8]) -> bool {
        enough(bytes)
    }

    fn limit(&self) -> usize {
        MAX_REQUEST
    }
}

impl<'a, K: Keeper, R: Wait> Handler<Seat<K>, ()> for SeatHandler<'a, K, R> {
    ghost use Rattle.bp_desk.specs.Doors.{history_at};
    ghost use Rattle.bp_desk.specs.Exchanges.{Deals as CallDeals, deal_cut};
    ghost use Rattle.bp_desk.specs.Seats.{IsSeatOf, SameSeat};

    // It is the seat that it was.
    ghost Keeps = { λ h v. IsSeatOf h.desk.now v.0 × SameSeat h.start.value v.0 };

    ghost Deals = { λ h v x _ w. CallDeals h.start.value.view.number (history_at v.0.view) x
        (history_at w.0.view) };

    ghost cut_off = { λ h v x was_cut. deal_cut h.start.value.view.number (history_at v.0.view) x
        was_cut };

    fn answer(&self, alloc: Global, at: &mut Seat<K>, _by: &mut (), bytes: &[u8]) -> Answered {
        let request = read_by(alloc, self.routes.as_ref(), bytes);
        answer_read(self.desk, self.rt, alloc, at, &request)
    }
}
