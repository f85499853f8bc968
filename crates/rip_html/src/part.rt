/// The part of a page that a token stands in.
#[derive(Clone, Copy, Debug, PartialEq, Eq)]
pub(crate) enum Part {
    /// Before the doctype and `<html>`.
    Beginning,
    /// Between the doctype and `<html>`.
    BehindDoctype,
    /// Between `<html>` and `<head>`.
    InHtml,
    InHead,
    /// Between `</head>` and `<body>`.
    BehindHead,
    /// In the body before its first script.
    InBody,
    /// In the body from its first script on.
    InScripts,
    /// Between `</body>` and `</html>`.
    BehindBody,
    BehindHtml,
}
