//! What the processes of a bundle share.
ghost use Rattle.slot_compile.specs.Template.{IsPlain};

use crate::Destination;
use crate::destination::leads_to;
use route_table::Routes;
use slot_compile::Compiled;
use std::alloc::Global;
use text_core::OutOfMemory;
use view_api::Views;

/// What the processes of a bundle share: its template, whose places are plain, its routes, and the views.
#[derive(Drop)]
pub struct App<V> {
    pub compiled: Compiled,
    pub routes: Routes,
    pub views: V,
    pub ghost plain: { IsPlain compiled },
}

impl<V: Views> App<V> {
    ghost use Rattle.std.specs.Prelude.{◌≡◌, IfOk, option_map};
    ghost use Rattle.live_page.specs.World.{route_in, destination_view};

    /// The app of a template, the routes to its views, and the views.
    pub fn build(compiled: Compiled, routes: Routes, views: V) -> App<V>
        ensures compiled { result.compiled ≡ compiled }
        ensures routes { result.routes ≡ routes }
        ensures views { result.views ≡ views }
    {
        compiled.places_are_plain();
        App {
            compiled,
            routes,
            views,
        }
    }

    /// Where a URL leads, if it leads anywhere: the view, and the value of the URL's query with the parameters of its
    /// path over it.
    pub fn route(&self, alloc: Global, url: &str) -> Result<Option<Destination>, OutOfMemory>
        ensures { IfOk result (λ to. option_map destination_view to ≡ route_in self.now.routes url.now) }
    {
        match self.routes.find(alloc, url)? {
            Some(found) => Ok(Some(leads_to(alloc, found)?)),
            None => Ok(None),
        }
    }
}
