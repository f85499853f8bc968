ghost use Rattle.std.specs.Prelude.{◌≡◌};
ghost use Rattle.rip_http.specs.Routes.{method_of, method_name};
ghost use Rattle.rip_http.specs.Stream.{code_of, allowed_by};

use rip_base::Bytes;

/// The methods that a route may take (RFC 9110 section 9.3).
#[derive(Clone, Copy, Debug, PartialEq, Eq)]
pub enum Method {
    Get,
    Post,
}

/// What a request asks for.
#[derive(Clone, Copy, Debug, PartialEq, Eq)]
pub enum Route {
    /// `/`: the page, in a new session.
    Page,
    /// `/e/SESSION`: a batch of events.
    Events,
    /// `/q/SESSION`: the end of a session.
    Quit,
}

/// Why a head is refused, in the order in which the causes are tried. The end of a head that does not come
/// (`Fields`) stands before them all.
#[derive(Clone, Copy, Debug, PartialEq, Eq)]
pub enum Refusal {
    /// No request's head, or its Host or Content-Length fields are not as they must be.
    Head,
    /// The first 8,192 bytes of the message hold no end of its head.
    Fields,
    /// No route matches the path.
    Path,
    /// The route takes this method alone.
    WrongMethod(Method),
    /// A transfer coding.
    Coding,
    /// A POST without Content-Length.
    NoLength,
    /// More than 65,536 bytes of body.
    TooLarge,
}

/// A refusal, and whether it is answered without a body: the head's method is HEAD.
#[derive(Clone, Copy, Debug, PartialEq, Eq)]
pub struct RefusedHead {
    pub refusal: Refusal,
    pub bare: bool,
}

/// What a head that is not refused says of its request.
#[derive(Clone, Copy, Debug, PartialEq, Eq)]
pub struct Going {
    pub route: Route,
    /// How many bytes of body stand behind the head.
    pub size: u64,
    /// The connection is to be shut behind the answer.
    pub close: bool,
}

/// A request.
#[derive(Debug, Drop)]
pub struct Message {
    pub route: Route,
    /// What stands behind `/e/` or `/q/`; empty for the page.
    pub segment: Bytes,
    pub body: Bytes,
    /// The connection is to be shut behind the answer.
    pub close: bool,
}

impl Method {
    /// The method's name.
    pub fn name(self) -> &'static [u8]
        ensures { result.now ≡ method_name self }
    {
        match self {
            Method::Get => b"GET",
            Method::Post => b"POST",
        }
    }
}

impl Route {
    /// The one method that the route takes.
    pub fn method(self) -> Method
        ensures { result ≡ method_of self }
    {
        match self {
            Route::Page => Method::Get,
            Route::Events | Route::Quit => Method::Post,
        }
    }
}

impl Refusal {
    /// The status code that tells it (RFC 9110 section 15).
    pub fn code(self) -> u16
        ensures { result ≡ code_of self }
    {
        match self {
            Refusal::Head => 400,
            Refusal::Fields => 431,
            Refusal::Path => 404,
            Refusal::WrongMethod(_) => 405,
            Refusal::Coding => 501,
            Refusal::NoLength => 411,
            Refusal::TooLarge => 413,
        }
    }

    /// The method that the answer names, where the method is refused (RFC 9110 section 15.5.6).
    pub fn allowed(self) -> Option<Method>
        ensures { result ≡ allowed_by self }
    {
        match self {
            Refusal::WrongMethod(method) => Some(method),
            Refusal::Head
            | Refusal::Fields
            | Refusal::Path
            | Refusal::Coding
            | Refusal::NoLength
            | Refusal::TooLarge => None,
        }
    }
}
