//! What is said of each cause: one row a cause, with what is wrong, what to write instead, and the heading to read.

use crate::cause::{AppCause, LineCause, Mending, PageCause, ScriptCause};

/// What a diagnostic says. In its texts `@` stands for what is found at the place.
#[derive(Clone, Copy, Debug)]
pub struct Message {
    /// What is wrong, in one sentence.
    pub what: &'static str,
    /// What to write instead.
    pub cure: &'static str,
    /// The heading of the docs to read.
    pub see: &'static str,
}

const FORM: &str = "docs/PAGES.md#the-form-of-a-page";

const REFUSALS: &str = "docs/PAGES.md#refusals";

const MENDED: &str = "docs/PAGES.md#what-is-accepted-and-mended-or-read-otherwise-by-a-browser";

const GESTURES: &str = "docs/PAGES.md#without-a-browser";

const TOKENS: &str = "docs/SCRIPTS.md#tokens";

const SYNTAX: &str = "docs/SCRIPTS.md#syntax";

const NAMES: &str = "docs/SCRIPTS.md#names-and-jumps";

const BUILT_IN: &str = "docs/SCRIPTS.md#built-in-functions";

const DOCUMENT: &str = "docs/DOCUMENT.md#the-document-what-a-pages-script-has-to-work-with";

const RIPLEY: &str = "docs/DOCUMENT.md#ripley";

const APP: &str = "docs/APPLICATIONS.md#refusals";

const FUNCTIONS: &str = "docs/APPLICATIONS.md#functions";

const LIMITS: &str = "docs/APPLICATIONS.md#limits";

const TRACES: &str = "docs/DECISIONS.md#logs-and-traces";

/// A row of the table.
fn row(what: &'static str, cure: &'static str, see: &'static str) -> Message {
    Message { what, cure, see }
}

/// What is said of a page.
pub fn page_message(cause: PageCause) -> Message {
    match cause {
        PageCause::NotUtf8 => row(
            "the bytes here are no character of UTF-8",
            "save the page as UTF-8",
            REFUSALS,
        ),
        PageCause::NoHtml => row(
            "`<html>` should begin here",
            "write `<!doctype html>` and `<html>` once, before all else",
            FORM,
        ),
        PageCause::NoHead => row(
            "`<head>` should begin here",
            "write `<head>` and `</head>` behind `<html>`, also where the head is empty",
            FORM,
        ),
        PageCause::NoBody => row(
            "`<body>` should begin here",
            "write `<body>` behind `</head>`, and the content in it",
            FORM,
        ),
        PageCause::BodyOpen => row(
            "the page ends, and `</head>` or `</body>` is missing",
            "close each part: `</body></html>` stands at the end",
            FORM,
        ),
        PageCause::HtmlOpen => row(
            "`</html>` should stand here",
            "put elements before `</body>`, and `</html>` at the end",
            FORM,
        ),
        PageCause::MissingPart => row(
            "a part of the page is missing here",
            "a page is a doctype, `<html>`, `<head>`..`</head>`, `<body>`..`</body>`, `</html>`",
            FORM,
        ),
        PageCause::StrayLess => row(
            "this `<` begins no tag",
            "write `&lt;` for a `<` in text",
            REFUSALS,
        ),
        PageCause::DoctypeInside => row(
            "a doctype stands in the head or the body",
            "leave it out: the one doctype is the first line of the page",
            REFUSALS,
        ),
        PageCause::EndTag => row("an end tag has its name alone", "write `</@>`", REFUSALS),
        PageCause::Tag => row(
            "the tag `<@` is not spelled well",
            "put one space before each attribute, end the tag with `>`, and write `/>` only at void elements such as `<br/>`: an element is closed by `</@>`",
            REFUSALS,
        ),
        PageCause::NoName => row(
            "an attribute has no name here",
            "write `name=\"value\"`",
            REFUSALS,
        ),
        PageCause::Attribute => row(
            "the attribute `@` has no value behind its `=`, or its quote is not closed",
            "write `@=\"value\"`, with no space round the `=`",
            REFUSALS,
        ),
        PageCause::DoubleAttribute => row(
            "the attribute `@` stands twice in this tag",
            "keep one of them; capitals make no difference",
            REFUSALS,
        ),
        PageCause::Reference => row(
            "this `&` begins no reference that is known",
            "write `&amp;` for an `&` in text; the others are `&lt;` `&gt;` `&quot;` `&apos;` `&nbsp;` and numbers as `&#8211;`, each with its `;`",
            REFUSALS,
        ),
        PageCause::OpenComment => row(
            "this comment is not closed",
            "write `-->` behind its text",
            REFUSALS,
        ),
        PageCause::VoidEnd => row(
            "`<@>` is a void element, and has no end tag",
            "leave `</@>` out",
            REFUSALS,
        ),
        PageCause::ScriptEnd => row(
            "a script ends at `</script`, whatever follows",
            "write `\"<\\/script\"` in a text of the script",
            REFUSALS,
        ),
        PageCause::EndOfPage => row(
            "the page ends in `<@>`, which is open",
            "write `</@>` where the element ends",
            REFUSALS,
        ),
        PageCause::EndTagBehind => row(
            "`</@>` stands behind `</html>`, where nothing is open",
            "leave it out",
            REFUSALS,
        ),
        PageCause::Misnested => row(
            "`</@>` should stand here: `<@>` is the innermost element that is open",
            "close elements in the order of their nesting",
            REFUSALS,
        ),
        PageCause::TextOutside => row(
            "text stands outside head and body, or in the head",
            "put the text into an element of the body",
            REFUSALS,
        ),
        PageCause::TagBehind => row(
            "`<@>` stands behind `</html>`",
            "put the element before `</body>`",
            REFUSALS,
        ),
        PageCause::ScriptNotLast => row(
            "something other than a script follows a script",
            "put all scripts at the end of the body, and comments before the first one",
            REFUSALS,
        ),
        PageCause::ScriptInside => row(
            "a script stands in the head or in an element",
            "make it a child of `body`, at its end",
            REFUSALS,
        ),
        PageCause::ExternalScript => row(
            "a script has an attribute `src`",
            "put the script's text into the page: the server has to run it too",
            REFUSALS,
        ),
        PageCause::Handler => row(
            "the attribute `@` is a handler, and handlers are no attributes here",
            "give the element an `id`, and write `document.getElementById(\"..\").addEventListener(\"click\", f)` in the script (the type is the name without `on`)",
            REFUSALS,
        ),
        PageCause::ScriptType => row(
            "a script of this `type` is not run",
            "leave `type` out; there are no modules",
            REFUSALS,
        ),
        PageCause::Radio => row(
            "radio buttons are not in the subset",
            "write a `<select>` with an `<option>` for each",
            REFUSALS,
        ),
        PageCause::Multiple => row(
            "a `<select>` has one choice here",
            "write checkboxes",
            REFUSALS,
        ),
        PageCause::CommentInScript => row(
            "`<!--` stands in a script",
            "write `< !--` in code, and `\"<\\x21--\"` in a text",
            REFUSALS,
        ),
        PageCause::SecondPart => row("a page has one `<@>`", "leave this one out", REFUSALS),
        PageCause::NotOfHead => row(
            "`<@>` is no element of the head",
            "put it into the body: the head has `title`, `style`, `meta`, `link` and `base`",
            REFUSALS,
        ),
        PageCause::Element => row(
            "`<@>` is not in the subset",
            "build it of other elements",
            REFUSALS,
        ),
        PageCause::TooNested => row(
            "200 elements are open here",
            "nest fewer elements",
            REFUSALS,
        ),
    }
}

/// What is said of a script whose tokens are refused.
fn token_message(cause: ScriptCause) -> Option<Message> {
    match cause {
        ScriptCause::Backquote => Some(row(
            "there are no template texts",
            "write a text in quotes, and `+` for what is put in: `\"a\" + b`",
            SYNTAX,
        )),
        ScriptCause::NotAscii => Some(row(
            "this character stands outside texts and comments",
            "names have letters of ASCII, digits, `$` and `_`; within quotes any character is accepted",
            TOKENS,
        )),
        ScriptCause::BehindNumeral => Some(row(
            "a letter stands directly behind a number",
            "put a space between them, or let the name begin with a letter",
            TOKENS,
        )),
        ScriptCause::Character => Some(row(
            "`@` has no meaning outside texts and comments",
            "leave it out, or put it into a text",
            TOKENS,
        )),
        ScriptCause::OpenText => Some(row(
            "this text is not closed on its line",
            "write the closing quote, and `\\n` for a line end in the text",
            TOKENS,
        )),
        ScriptCause::OpenComment => Some(row(
            "this comment is not closed",
            "write `*/` behind it",
            TOKENS,
        )),
        ScriptCause::Fraction => Some(row(
            "numbers are whole: there are no fractions and no exponents",
            "count in smaller units, as 150 hundredths for 1.5",
            TOKENS,
        )),
        ScriptCause::Octal => Some(row(
            "a number begins with `0` and has another digit",
            "write it without the `0`, or hexadecimal as `0x8`",
            TOKENS,
        )),
        ScriptCause::OctalEscape => Some(row(
            "`\\` stands before a digit",
            "write `\\x08`, with two hexadecimal digits",
            TOKENS,
        )),
        ScriptCause::TooLarge => Some(row(
            "this number is greater than 9007199254740991",
            "write a smaller number, or a text",
            TOKENS,
        )),
        ScriptCause::Escape => Some(row(
            "this escape is not spelled well",
            "write `\\x` and two hexadecimal digits, or `\\u` and four",
            TOKENS,
        )),
        _ => None,
    }
}

/// What is said of a script whose tree is refused at a word or a mark that other scripts have.
fn syntax_message(cause: ScriptCause) -> Option<Message> {
    match cause {
        ScriptCause::Const => Some(row("there is no `const`", "write `var`", SYNTAX)),
        ScriptCause::Let => Some(row("there is no `let`", "write `var`", SYNTAX)),
        ScriptCause::Class => Some(row(
            "there are no classes",
            "write a function, and its methods at its `prototype`: `function A() {}` and `A.prototype.f = function () {};`",
            SYNTAX,
        )),
        ScriptCause::Module => Some(row(
            "there are no modules, so no `@`",
            "put all of the script into the page; its scripts share their names",
            SYNTAX,
        )),
        ScriptCause::Yield => Some(row(
            "there are no generators",
            "write a loop, or a function that is called for each value",
            SYNTAX,
        )),
        ScriptCause::Word => Some(row(
            "`@` is a reserved word, and no name",
            "take another name",
            SYNTAX,
        )),
        ScriptCause::With => Some(row(
            "there is no `with`",
            "write the object's name before each property",
            SYNTAX,
        )),
        ScriptCause::Debugger => Some(row("there is no `debugger`", "leave it out", SYNTAX)),
        ScriptCause::Arrow => Some(row(
            "there are no arrow functions",
            "write `function (a) { return a; }`",
            SYNTAX,
        )),
        ScriptCause::Spread => Some(row(
            "there is no `...`",
            "write the elements one by one, or a loop that adds them by `push`",
            SYNTAX,
        )),
        ScriptCause::Chain => Some(row("there is no `?.`", "write `a && a.b`", SYNTAX)),
        ScriptCause::Nullish => Some(row("there is no `??`", "write `a === null ? b : a`", SYNTAX)),
        ScriptCause::ForIn => Some(row(
            "there is no `for` over the names of an object",
            "keep an array of the names, and write `for (var i = 0; i < names.length; i++)`",
            SYNTAX,
        )),
        ScriptCause::ForOf => Some(row(
            "there is no `for` over the elements of an array",
            "write `for (var i = 0; i < list.length; i++)`",
            SYNTAX,
        )),
        ScriptCause::InnerFunction => Some(row(
            "a function is declared within a block",
            "write `var f = function () {};`, or declare it at the top of the function or the script",
            SYNTAX,
        )),
        _ => None,
    }
}

/// What is said of a script whose tree is refused elsewhere.
fn place_message(cause: ScriptCause) -> Option<Message> {
    match cause {
        ScriptCause::Shorthand => Some(row(
            "a property has no value here",
            "write `{a: a}`",
            SYNTAX,
        )),
        ScriptCause::Elision => Some(row(
            "an element is left out",
            "write `undefined` in its place",
            SYNTAX,
        )),
        ScriptCause::LastComma => Some(row(
            "a comma stands behind the last argument or parameter",
            "leave the comma out",
            SYNTAX,
        )),
        ScriptCause::Label => Some(row(
            "there are no labels",
            "let the outer loop test a variable, or put the loops into a function with `return`",
            SYNTAX,
        )),
        ScriptCause::Accessor => Some(row(
            "an object literal has no accessors and no methods in short",
            "write a function under a key: `{a: function () {}}`",
            SYNTAX,
        )),
        ScriptCause::Expression => Some(row(
            "there are no regular expressions, and `/` divides: nothing stands before it",
            "write a loop over `charAt`, or `indexOf`",
            TOKENS,
        )),
        ScriptCause::Target => Some(row(
            "what stands before this `=` cannot be assigned",
            "write a name, `a.name` or `a[e]` on the left; `===` compares",
            SYNTAX,
        )),
        ScriptCause::DefaultValue => Some(row(
            "a parameter or a property has no `=`",
            "of a parameter write `if (a === undefined) { a = ..; }`, of a property `{a: ..}`",
            SYNTAX,
        )),
        ScriptCause::Destructuring => Some(row(
            "a pattern stands where a name should",
            "write a `var` for each: `var a = o.a;`",
            SYNTAX,
        )),
        ScriptCause::Power => Some(row("there is no `**`", "multiply in a loop", SYNTAX)),
        ScriptCause::LineEnd => Some(row(
            "the value of `throw` stands on the next line",
            "keep it on the line of `throw`",
            SYNTAX,
        )),
        ScriptCause::EndOfScript => Some(row(
            "the script ends here, and something is still open",
            "close each `{`, `(` and `[`",
            SYNTAX,
        )),
        ScriptCause::Unexpected => Some(row(
            "no script goes on with `@` here",
            "look for a missing `;`, `,`, operator or bracket before it",
            SYNTAX,
        )),
        ScriptCause::TooNested => Some(row(
            "this is nested more than 200 deep",
            "give the parts of a long expression names",
            SYNTAX,
        )),
        _ => None,
    }
}

/// What is said of a script whose names or jumps are refused.
fn name_message(cause: ScriptCause) -> Option<Message> {
    match cause {
        ScriptCause::NotStrict => Some(row(
            "the script does not begin with \"use strict\"",
            "write `\"use strict\";` as its first statement; leave an empty script out",
            NAMES,
        )),
        ScriptCause::Duplicate => Some(row(
            "`@` stands here a second time",
            "take another name, or keep one entry for the key",
            NAMES,
        )),
        ScriptCause::BadName => Some(row(
            "`@` may be neither declared nor assigned",
            "take another name",
            NAMES,
        )),
        ScriptCause::Global => Some(row(
            "`@` is a global: it is neither declared at the top nor assigned",
            "take another name; a function of yours may have it as a parameter or a `var`",
            NAMES,
        )),
        ScriptCause::Delete => Some(row(
            "a name is deleted",
            "write `@ = undefined;`, or delete a property of an object of yours",
            NAMES,
        )),
        ScriptCause::UnknownGlobal => Some(row(
            "`@` is declared nowhere, and is no global here",
            "declare it by `var @` or `function @() {}`, or mend its spelling",
            NAMES,
        )),
        ScriptCause::This => Some(row(
            "`this` stands outside all functions, and there is no object of globals",
            "declare a `var` at the top",
            NAMES,
        )),
        ScriptCause::Return => Some(row(
            "`return` stands outside all functions",
            "put the code into a function, or use `if` and `else`",
            NAMES,
        )),
        ScriptCause::Break => Some(row(
            "`break` stands in no loop and no `switch` of its function",
            "leave a function by `return`",
            NAMES,
        )),
        ScriptCause::Continue => Some(row(
            "`continue` stands in no loop of its function",
            "leave a function by `return`",
            NAMES,
        )),
        _ => None,
    }
}

/// What is said of a script that names a global of browsers that is none here.
fn global_message(cause: ScriptCause) -> Message {
    match cause {
        ScriptCause::Console => row(
            "there is no `console`",
            "put the text into the page, as by `textContent` of an element; `script run FILE` shows the values of a script alone",
            DOCUMENT,
        ),
        ScriptCause::Window => row(
            "there is no `@`, and no object of globals",
            "use `document` and your own names as they are",
            NAMES,
        ),
        ScriptCause::Json => row(
            "there is no `JSON`",
            "`ripley.call` takes and gives values as they are, with no text between",
            RIPLEY,
        ),
        ScriptCause::Object => row(
            "there is no `Object`",
            "write `{}`, a function with `new`, and `hasOwnProperty`",
            BUILT_IN,
        ),
        ScriptCause::Array => row("there is no `Array`", "write `[]` and `push`", BUILT_IN),
        ScriptCause::Date => row(
            "there is no `Date`",
            "write `ripley.now()`, the milliseconds since 1970",
            RIPLEY,
        ),
        ScriptCause::Timer => row(
            "there are no timers, so no `@`",
            "do it in a listener, or in the callback of `ripley.call`",
            RIPLEY,
        ),
        ScriptCause::Dialog => row(
            "there are no dialogs, so no `@`",
            "put the text into an element of the page",
            DOCUMENT,
        ),
        ScriptCause::Fetch => row(
            "there is no `@`",
            "declare a function in the manifest, and write `ripley.call(\"name\", [..], function (reply) {})`",
            RIPLEY,
        ),
        ScriptCause::Storage => row(
            "there is no `@`",
            "keep values at the server: declare functions with `get` and `put` in the manifest, and use `ripley.call`",
            FUNCTIONS,
        ),
        ScriptCause::Infinity => row(
            "there is no `Infinity`: numbers are whole",
            "take a number past all of yours, as 9007199254740991",
            BUILT_IN,
        ),
        ScriptCause::ParseFloat => row(
            "there is no `parseFloat`: numbers are whole",
            "write `parseInt`",
            BUILT_IN,
        ),
        ScriptCause::Boolean => row("there is no `Boolean`", "write `!!a`", BUILT_IN),
        ScriptCause::Pattern => row(
            "there are no regular expressions",
            "write a loop over `charAt`, or `indexOf`",
            BUILT_IN,
        ),
        ScriptCause::Promise => row(
            "there are no promises",
            "go on in the callback of `ripley.call`",
            RIPLEY,
        ),
        ScriptCause::Collection => row("there is no `@`", "write an object or an array", BUILT_IN),
        _ => row(
            "there is no `@`: no text is run as a script",
            "write a function",
            NAMES,
        ),
    }
}

/// What is said of a script.
pub fn script_message(cause: ScriptCause) -> Message {
    if let Some(message) = token_message(cause) {
        return message;
    }
    if let Some(message) = syntax_message(cause) {
        return message;
    }
    if let Some(message) = place_message(cause) {
        return message;
    }
    match name_message(cause) {
        Some(message) => message,
        None => global_message(cause),
    }
}

/// What is said of a manifest.
pub fn app_message(cause: AppCause) -> Message {
    match cause {
        AppCause::Syntax => row(
            "the manifest is no JSON here",
            "look for a missing or surplus comma, bracket or quote at this place; names stand in `\"`",
            APP,
        ),
        AppCause::NotWhole => row(
            "a number is not whole, or past 9007199254740991",
            "write whole numbers, without point and exponent",
            APP,
        ),
        AppCause::TooDeep => row(
            "arrays and objects nest more than 8 deep",
            "a manifest needs three levels",
            APP,
        ),
        AppCause::NoObject => row(
            "the manifest is no object",
            "write `{\"version\":1,\"functions\":{},\"limits\":{}}`",
            APP,
        ),
        AppCause::NoMember => row(
            "the member `@` is missing",
            "a manifest has the members `version`, `functions` and `limits`, and in version 2 `language` and `wire`, each of them, where functions and limits may be `{}`",
            APP,
        ),
        AppCause::OtherMember => row(
            "a manifest has no member `@`",
            "a manifest has the members `version`, `functions` and `limits`, and in version 2 `language` and `wire`, and no other",
            APP,
        ),
        AppCause::Version => row(
            "`@` is no number that is known",
            "write `\"version\":1` with three members, or `\"version\":2,\"language\":1,\"wire\":1` with five, as numbers",
            APP,
        ),
        AppCause::NoFunctions => row(
            "`functions` is no object",
            "write `\"functions\":{\"order\":[\"push\",\"orders.\"]}`, or `{}`",
            FUNCTIONS,
        ),
        AppCause::TooManyFunctions => row(
            "`functions` has more than 256 members",
            "declare fewer functions",
            FUNCTIONS,
        ),
        AppCause::FunctionName => row(
            "`@` is no name of a function",
            "a name has 1 to 64 letters of ASCII, digits, `_` and `.`",
            FUNCTIONS,
        ),
        AppCause::FunctionForm => row(
            "the function `@` is no array of an operation and a prefix",
            "write `\"@\":[\"push\",\"orders.\"]`",
            FUNCTIONS,
        ),
        AppCause::Operation => row(
            "the function `@` has an operation that is none",
            "the operations are `get`, `put`, `add`, `take`, `push` and `list`",
            FUNCTIONS,
        ),
        AppCause::Prefix => row(
            "the function `@` has a prefix that is none",
            "a prefix has 0 to 64 letters of ASCII, digits, `_` and `.`",
            FUNCTIONS,
        ),
        AppCause::NoLimits => row(
            "`limits` is no object",
            "write `\"limits\":{\"sessions\":32}`, or `{}`",
            LIMITS,
        ),
        AppCause::LimitName => row(
            "there is no limit `@`",
            "the limits are `fuel`, `cells`, `units`, `nodes`, `depth`, `queue` and `sessions`",
            LIMITS,
        ),
        AppCause::LimitRange => row(
            "the limit `@` is out of its range",
            "the greatest are: fuel 10000000, cells 1000000, units 4000000, nodes 50000, depth 5000, queue 1048576, sessions 1024; the least is 1",
            LIMITS,
        ),
        AppCause::LimitsTooLarge => row(
            "all sessions together may take more than 4294967296 bytes",
            "lower `sessions` or another limit: sessions * (32 cells + 2 units + 64 nodes + 64 depth + queue + 3145728) counts",
            LIMITS,
        ),
    }
}

/// What is said of a line of a file, or of the file.
pub fn line_message(cause: LineCause) -> Message {
    match cause {
        LineCause::GestureSpelling => row(
            "this line is no gesture",
            "write `click N`, `focus N`, `blur N`, `submit N`, `input N TEXT`, `change N`, `change N K`, `flush` or `# ..`, with one space between and N the number of a node",
            GESTURES,
        ),
        LineCause::GestureNode => row(
            "a user cannot do this: the page has no such node as it is loaded, and no script has made it by then",
            "`script nodes PAGE` lists the nodes with their numbers",
            GESTURES,
        ),
        LineCause::Gesture => row(
            "a user cannot do this at this node",
            "`script nodes PAGE` lists the nodes with their numbers; input goes to text controls, submit to forms, change to controls, focus and blur to controls and links, and none to what is disabled",
            GESTURES,
        ),
        LineCause::Trace => row(
            "this line is none of a trace, or cannot stand behind those before it",
            "write `open C`, `send C HEX`, `gone C`, `quiet`, `time M`, `word H`, `say C get`, `say C e S BODY`, `say C q S` or `# ..`; connections are numbered from 0 in the order of `open`",
            TRACES,
        ),
        LineCause::TooLong => row(
            "the file has more than 16777216 bytes",
            "make it shorter",
            "docs/SCRIPTS.md#scripts-what-a-pages-script-may-say",
        ),
        LineCause::ScriptNotUtf8 => row(
            "the bytes here are no character of UTF-8",
            "save the script as UTF-8",
            "docs/SCRIPTS.md#trying-a-script-alone",
        ),
    }
}

/// What is said of what a browser mends.
pub fn mending_message(cause: Mending) -> Message {
    match cause {
        Mending::NoBody => row(
            "`<@>` stands in `<table>` without a `<tbody>`: a browser adds one, its nodes get other numbers, and its session ends",
            "write `<tbody>` round the rows",
            MENDED,
        ),
        Mending::TablePart => row(
            "`<@>` does not stand where it belongs in a table: a browser drops or adds tags here, and its session ends",
            "write `<table><tbody><tr><td>`",
            MENDED,
        ),
        Mending::InTable => row(
            "`<@>` is no part of a table: a browser moves it before the table, and its session ends",
            "put it into a `<td>`",
            MENDED,
        ),
        Mending::TextInTable => row(
            "text stands in a table outside its cells: a browser moves it before the table, and its session ends",
            "put it into a `<td>`",
            MENDED,
        ),
        Mending::BlockInParagraph => row(
            "`<@>` stands in `<p>`: a browser closes the `<p>` first, and its session ends",
            "write `<div>` in place of that `<p>`, or close it before",
            MENDED,
        ),
        Mending::InItself => row(
            "`<@>` stands in `<@>`: a browser closes or drops one of them, and its session ends",
            "close the first before the second begins",
            MENDED,
        ),
        Mending::InLike => row(
            "`<@>` stands directly in its like: a browser closes the first, and its session ends",
            "close the first before the second begins",
            MENDED,
        ),
        Mending::InSelect => row(
            "`<@>` stands in `<select>`: a browser drops it or closes the `<select>`, and its session ends",
            "a `<select>` holds `<option>` and `<optgroup>`",
            MENDED,
        ),
        Mending::InputType => row(
            "an `<input>` of this `type` is read otherwise by a browser",
            "the types are text, password, search, tel, url, email, number, checkbox, hidden, submit and button, spelled out",
            MENDED,
        ),
    }
}
