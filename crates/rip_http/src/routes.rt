ghost use Rattle.std.specs.Prelude.{◌≡◌, IfOk, IsUtf8, option_map};
ghost use Rattle.matchit.specs.Seek.{first};
ghost use Rattle.rip_http.specs.Routes.{path_of, route_of};
ghost use Rattle.rip_http.specs.Routing.{RoutesByPath};

use crate::request::Route;
use crate::target::path_of;
use matchit::{InsertError, Router};
use rip_base::NoMemory;
use std::alloc::Global;
use std::marker::Model;

/// The routes of a connection, by their paths.
#[derive(Drop)]
pub(crate) struct Routes {
    router: Router<Route>,
}

impl Model for Routes {
    ghost use Rattle.matchit.specs.Rows.{RowsOf};
    ghost use Rattle.matchit.specs.Router.{RouteOf};
    ghost use Rattle.rip_http.specs.declared.request.Route.{Route};
    ghost use Rattle.rip_http.specs.Routing.{RoutesByPath};

    ghost Value = { RowsOf (RouteOf Route) };

    ghost view = { λ r. r.router };

    ghost invariant = { λ r. RoutesByPath r.router };
}

/// A router of the page, the events and the end of a session.
fn router(alloc: Global) -> Result<Router<Route>, InsertError>
    ensures { IfOk result (λ r. RoutesByPath r) }
{
    let mut router = Router::new(alloc);
    router.insert("/", Route::Page)?;
    router.insert("/e/{session}", Route::Events)?;
    router.insert("/q/{session}", Route::Quit)?;
    Ok(router)
}

/// What a router keeps for a path.
fn value_at(router: &Router<Route>, path: &str) -> Option<Route>
    ensures { result ≡ option_map (λ r. r.value) (first router.now path.now) }
{
    match router.at(path) {
        Ok(found) => Some(*found.value),
        Err(_) => None,
    }
}

/// As much of a path as tells its route: of a segment in which no slash stands, its first byte.
fn front_of(path: &[u8]) -> &[u8]
    requires { IsUtf8 path.now }
    ensures text { IsUtf8 result.now }
    ensures route { route_of result.now ≡ route_of path.now }
{
    if path.len() > 4 && path[4].is_ascii() && !path[3..].contains(&b'/') {
        &path[..4]
    } else {
        path
    }
}

impl Routes {
    /// The routes.
    pub(crate) fn make(alloc: Global) -> Result<Routes, NoMemory> {
        match router(alloc) {
            Ok(router) => Ok(Routes { router }),
            Err(_) => Err(NoMemory),
        }
    }

    /// The route of a path.
    fn of_path(&self, path: &[u8]) -> Option<Route>
        requires { IsUtf8 path.now }
        ensures { result ≡ route_of path.now }
    {
        match str::from_utf8(path) {
            Ok(text) => value_at(&self.router, text),
            Err(_) => None,
        }
    }

    /// The route of a target. The router would look at each byte of a segment, and is spared that.
    pub(crate) fn route_of(&self, target: &[u8]) -> Option<Route>
        requires { IsUtf8 target.now }
        ensures { result ≡ route_of (path_of target.now) }
    {
        self.of_path(front_of(path_of(target)))
    }
}
