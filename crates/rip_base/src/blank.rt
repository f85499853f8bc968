ghost use Rattle.std.specs.Prelude.{◌≡◌};
ghost use Rattle.rip_base.specs.Blank.{is_white_space, is_line_end, is_blank, trimmed, trimmed_start, trimmed_end};

/// Whether the unit is white space (ECMA-262 7.2).
pub fn is_white_space(unit: u16) -> bool
    ensures { result ≡ is_white_space unit }
{
    matches!(
        unit,
        0x9 | 0xB
            | 0xC
            | 0x20
            | 0xA0
            | 0x1680
            | 0x2000
            | 0x2001
            | 0x2002
            | 0x2003
            | 0x2004
            | 0x2005
            | 0x2006
            | 0x2007
            | 0x2008
            | 0x2009
            | 0x200A
            | 0x202F
            | 0x205F
            | 0x3000
            | 0xFEFF
    )
}

/// Whether the unit ends a line (ECMA-262 7.3).
pub fn is_line_end(unit: u16) -> bool
    ensures { result ≡ is_line_end unit }
{
    matches!(unit, 0xA | 0xD | 0x2028 | 0x2029)
}

fn is_blank(unit: u16) -> bool
    ensures { result ≡ is_blank unit }
{
    is_white_space(unit) || is_line_end(unit)
}

// The text without white space and line ends at its start and its end.
pub(crate) fn trim(text: &[u16]) -> &[u16]
    ensures { result.now ≡ trimmed text.now }
{
    trim_end(trim_start(text))
}

/// The text without white space and line ends at its start.
pub fn trim_start(text: &[u16]) -> &[u16]
    ensures { result.now ≡ trimmed_start text.now }
{
    let mut rest = text;
    while let [first, others @ ..] = rest {
        if !is_blank(*first) {
            break;
        }
        rest = others;
    }
    rest
}

fn trim_end(text: &[u16]) -> &[u16]
    ensures { result.now ≡ trimmed_end text.now }
{
    let mut rest = text;
    while let [others @ .., last] = rest {
        if !is_blank(*last) {
            break;
        }
        rest = others;
    }
    rest
}
