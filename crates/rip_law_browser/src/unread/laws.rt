ghost use Rattle.rip_law_browser.specs.Unread.{AnswersReadNoReply, RunsReadNoReply};

/// A law, and no work: whichever replies wait, a browser answers alike, and so does each run of a program over it; the replies
/// stay as they are.
pub fn replies_are_unread()
    ensures answers { AnswersReadNoReply }
    ensures runs { RunsReadNoReply }
{}
