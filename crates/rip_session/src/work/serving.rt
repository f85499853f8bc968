ghost use Rattle.std.specs.Prelude.{◌≡◌};
ghost use Rattle.rip_session.specs.Serving.{has_room, may_serve, moment_of};

use rip_base::{MAX_WHOLE, Whole};
use rip_host::Browser;

/// Whether a call waits that may be served.
pub(crate) fn may_serve(browser: &Browser) -> bool
    ensures { result ≡ may_serve browser.now }
{
    let taken = browser.calls.taken();
    taken < u64::MAX && taken < browser.calls.made() && has_room(browser)
}

/// Whether the reply to the call that is next may be kept.
fn has_room(browser: &Browser) -> bool
    ensures { result ≡ has_room browser.now }
{
    browser.calls.front_callback().is_none() || !browser.undelivered.is_full()
}

/// The moment of so many milliseconds; the last moment stands for those past it.
pub fn moment_of(time: u64) -> Whole
    ensures { result ≡ moment_of time }
{
    match Whole::new(time.min(MAX_WHOLE as u64) as i64) {
        Some(moment) => moment,
        None => Whole::from(0u32),
    }
}
