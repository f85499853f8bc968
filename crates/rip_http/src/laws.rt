ghost use Rattle.rip_http.specs.Answers.{AnswersTellApart};
ghost use Rattle.rip_http.specs.Laws.{HeadEndIsFound, NextIsOne, RequestsAreOne, CutsDoNotMatter, TakenStands, EndsTell, ComeStays};

/// The search finds the end of a head, and nothing else.
pub fn head_end_is_found()
    ensures { HeadEndIsFound }
{}

/// One thing stands at the front of bytes: a message, a refusal, or less than a message.
pub fn next_is_one()
    ensures { NextIsOne }
{}

/// A stream has one list of requests.
pub fn requests_are_one()
    ensures { RequestsAreOne }
{}

/// However the bytes were cut and whenever messages were taken, once no more is to be taken, the messages are those
/// of the whole stream.
pub fn cuts_do_not_matter()
    ensures { CutsDoNotMatter }
{}

/// In mid-stream, what was taken begins the stream, whatever comes.
pub fn taken_stands()
    ensures { TakenStands }
{}

/// The messages that can be taken of a stream's first bytes are those that end within them.
pub fn ends_tell()
    ensures { EndsTell }
{}

/// A message that has come stays, and so does a refusal, whatever comes behind it.
pub fn come_stays()
    ensures { ComeStays }
{}

/// Two answers with the same bytes are equal, where a bare one has no body.
pub fn answers_tell_apart()
    ensures { AnswersTellApart }
{}
