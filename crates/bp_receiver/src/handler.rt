// Who answers the requests that come to the receiver's desk.
use crate::delivery::Delivery;
use crate::event_answers::{answer_read, read_by};
use crate::requests::event_enough;
use bp_doors::{Answered, Handler};
use bp_keep::Keeper;
use bp_outside::Enough;
use bp_web::{MAX_REQUEST, RouteTable};
use std::alloc::Global;

// Events of the desk, read by these routes of calls, if there was memory for them.
#[derive(Drop)]
pub(crate) struct EventHandler {
    pub(crate) routes: Option<RouteTable>,
}

impl Enough for EventHandler {
    ghost use Rattle.bp_web.specs.declared.requests.TheConstants.{MAX_REQUEST};
    ghost use Rattle.bp_receiver.specs.Delivered.{TellsEvent};

    ghost Tells = { λ _ bytes answer. TellsEvent bytes answer };

    ghost limit = { λ _. MAX_REQUEST };

    fn enough(&self, bytes: &[u8]) -> bool {
        event_enough(bytes)
    }

    fn limit(&self) -> usize {
        MAX_REQUEST
    }
}

impl<K: Keeper> Handler<Delivery, K> for EventHandler {
    ghost use Rattle.std.specs.Prelude.{⊤};
    ghost use Rattle.bp_receiver.specs.EventServing.{EventDeals, cut-off, desk_view};

    ghost Keeps = { λ _ _. ⊤ };

    ghost Deals = { λ _ v x made w. EventDeals (desk_view v.0 (K.shows v.1)) x made
        (desk_view w.0 (K.shows w.1)) };

    ghost cut_off = { λ _ w x was_cut. cut-off (desk_view w.0 (K.shows w.1)) x was_cut };

    fn answer(&self, alloc: Global, at: &mut Delivery, by: &mut K, bytes: &[u8]) -> Answered {
        let read = read_by(alloc, self.routes.as_ref(), bytes);
        answer_read(alloc, at, by, &read)
    }
}
