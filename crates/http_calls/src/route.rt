ghost use Rattle.std.specs.Prelude.{◌≡◌, find};
ghost use Rattle.std.specs.Str.{bytes_eq};
ghost use Rattle.http_calls.specs.Routes.{path_of, route_at, method_of};

use crate::bytes::same;

/// What is done to a topic or to a channel.
#[derive(Clone, Copy)]
pub(crate) enum Verb {
    /// Make it.
    Create,
    /// Delete it.
    Delete,
    /// Drop what waits in it.
    Empty,
    /// Pause it.
    Pause,
    /// End such a pause.
    Unpause,
}

/// The calls.
#[derive(Clone, Copy)]
pub(crate) enum Route {
    /// `/ping`
    Ping,
    /// `/info`
    Info,
    /// `/stats`
    Stats,
    /// `/pub`
    Publish,
    /// `/mpub`
    PublishMany,
    /// `/topic/..`
    OnTopic(Verb),
    /// `/channel/..`
    OnChannel(Verb),
    /// `/stop`
    Stop,
}

/// All calls.
static ROUTES: [Route; 16] = [
    Route::Ping,
    Route::Info,
    Route::Stats,
    Route::Publish,
    Route::PublishMany,
    Route::OnTopic(Verb::Create),
    Route::OnTopic(Verb::Delete),
    Route::OnTopic(Verb::Empty),
    Route::OnTopic(Verb::Pause),
    Route::OnTopic(Verb::Unpause),
    Route::OnChannel(Verb::Create),
    Route::OnChannel(Verb::Delete),
    Route::OnChannel(Verb::Empty),
    Route::OnChannel(Verb::Pause),
    Route::OnChannel(Verb::Unpause),
    Route::Stop,
];

/// The call that the path names, or None exactly where it names none.
pub(crate) fn route_of(path: &[u8]) -> Option<Route>
    ensures { result ≡ route_at path.now }
{
    first_at(path, &ROUTES)
}

/// The first of these calls that has this path.
fn first_at(path: &[u8], routes: &[Route]) -> Option<Route>
    ensures { result ≡ find (λ named. bytes_eq path.now (path_of named)) routes.now }
{
    for route in routes {
        if same(path, route.path()) {
            return Some(*route);
        }
    }
    None
}

impl Route {
    /// The path of the call.
    fn path(self) -> &'static [u8]
        ensures { result.now ≡ path_of self }
    {
        match self {
            Route::Ping => b"/ping",
            Route::Info => b"/info",
            Route::Stats => b"/stats",
            Route::Publish => b"/pub",
            Route::PublishMany => b"/mpub",
            Route::OnTopic(Verb::Create) => b"/topic/create",
            Route::OnTopic(Verb::Delete) => b"/topic/delete",
            Route::OnTopic(Verb::Empty) => b"/topic/empty",
            Route::OnTopic(Verb::Pause) => b"/topic/pause",
            Route::OnTopic(Verb::Unpause) => b"/topic/unpause",
            Route::OnChannel(Verb::Create) => b"/channel/create",
            Route::OnChannel(Verb::Delete) => b"/channel/delete",
            Route::OnChannel(Verb::Empty) => b"/channel/empty",
            Route::OnChannel(Verb::Pause) => b"/channel/pause",
            Route::OnChannel(Verb::Unpause) => b"/channel/unpause",
            Route::Stop => b"/stop",
        }
    }

    /// The method of the call.
    pub(crate) fn method(self) -> &'static [u8]
        ensures { result.now ≡ method_of self }
    {
        match self {
            Route::Ping | Route::Info | Route::Stats => b"GET",
            _ => b"POST",
        }
    }
}
