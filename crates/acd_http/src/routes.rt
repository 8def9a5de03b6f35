//! The routes.

ghost use Rattle.std.specs.Prelude.{◌≡◌, IfOk, OnOk, option_map, []};
ghost use Rattle.acd_http.specs.Routing.{add, table, matched, route_of};

use matchit::{InsertError, Router};
use std::alloc::Global;

/// The route of a path: to the services, or to a read.
#[derive(Clone, Copy, Debug, PartialEq, Eq)]
pub(crate) enum Route {
    Services,
    Agent,
    Call,
    Device,
    Queue,
    Events,
    History,
    MonitorEvents,
    Report,
    Snapshot,
    Requests,
}

impl Route {
    ghost use Rattle.std.specs.Prelude.{◌≡◌};
    ghost use Rattle.acd_http.specs.Routing.{is_services};

    pub(crate) fn is_services(self) -> bool
        ensures { result ≡ is_services self }
    {
        matches!(self, Route::Services)
    }
}

/// The routes of a desk: `/csta`, `/agents/{id}`, `/calls/{id}`, `/devices/{id}`, `/queues/{id}`, `/events`, `/history`,
/// `/monitors/{id}/events`, `/reports/queues`, `/requests` and `/snapshot`.
#[derive(Drop)]
pub struct Routes {
    router: Router<Route>,
    ghost known: { router ≡ table },
}

fn add(router: &mut Router<Route>, text: &str, route: Route) -> Result<(), InsertError>
    ensures { OnOk result (router.new ≡ add text.now route router.old) }
{
    router.insert(text, route)
}

#[tactic(auto, unfolding(crate::specs::Routing::table))]
fn known_routes(alloc: Global) -> Result<Router<Route>, InsertError>
    ensures { IfOk result (λ r. r ≡ table) }
{
    let mut router = Router::new(alloc);
    add(&mut router, "/csta", Route::Services)?;
    add(&mut router, "/agents/{id}", Route::Agent)?;
    add(&mut router, "/calls/{id}", Route::Call)?;
    add(&mut router, "/devices/{id}", Route::Device)?;
    add(&mut router, "/queues/{id}", Route::Queue)?;
    add(&mut router, "/events", Route::Events)?;
    add(&mut router, "/monitors/{id}/events", Route::MonitorEvents)?;
    add(&mut router, "/reports/queues", Route::Report)?;
    add(&mut router, "/snapshot", Route::Snapshot)?;
    add(&mut router, "/history", Route::History)?;
    add(&mut router, "/requests", Route::Requests)?;
    Ok(router)
}

impl Routes {
    /// The routes. They take memory.
    pub fn new(alloc: Global) -> Result<Routes, InsertError> {
        let router = known_routes(alloc)?;
        Ok(Routes { router })
    }

    /// The route of a path. Its bytes are compared as they are.
    pub(crate) fn route_of(&self, path: &[u8]) -> Option<Route>
        ensures { result ≡ route_of path.now }
    {
        match str::from_utf8(path) {
            Ok(path) => self.matched(path),
            Err(_) => None,
        }
    }

    fn matched(&self, path: &str) -> Option<Route>
        ensures { result ≡ matched path.now }
    {
        match self.router.at(path) {
            Ok(found) => Some(*found.value),
            Err(_) => None,
        }
    }
}
