// The routes of the desk's own: which targets each has.
ghost use Rattle.std.specs.Prelude.{◌≡◌};
ghost use Rattle.bp_receiver.specs.DeskRoutes.{desk_route_of, has_body, is_file_target};

use bp_web::routes::fits;

/// What a request that isn't for a call asks of the desk.
#[derive(Clone, Copy, Debug, PartialEq, Eq)]
pub enum DeskRoute {
    /// POST /grants
    Grant,
    /// GET /granted
    List,
    /// GET /granted/{id}/{a}/{b} and up to two parts more
    File,
}

impl DeskRoute {
    // Whether its requests have a body.
    pub(crate) fn has_body(self) -> bool
        ensures { result ≡ has_body self }
    {
        matches!(self, DeskRoute::Grant)
    }
}

// The route of a request. It takes no memory.
pub(crate) fn route_in(method: &[u8], target: &[u8]) -> Option<DeskRoute>
    ensures { result ≡ desk_route_of method.now target.now }
{
    if method == b"POST".as_slice() && target == b"/grants".as_slice() {
        return Some(DeskRoute::Grant);
    }
    if method == b"GET".as_slice() && target == b"/granted".as_slice() {
        return Some(DeskRoute::List);
    }
    if method == b"GET".as_slice() && is_file_target(target) {
        return Some(DeskRoute::File);
    }
    None
}

// Whether a target names a production and two to four parts of a path.
fn is_file_target(target: &[u8]) -> bool
    ensures { result ≡ is_file_target target.now }
{
    fits(b"/granted/*/*/*", target)
        || fits(b"/granted/*/*/*/*", target)
        || fits(b"/granted/*/*/*/*/*", target)
}
