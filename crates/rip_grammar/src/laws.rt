ghost use Rattle.rip_grammar.specs.Offending.{ContinuingGoesOn, ContinuingGoesOnBehindPostfix, InsertedBehindName, OffendingIsInserted, OthersOffend, OthersOffendBehindPostfix};
ghost use Rattle.rip_grammar.specs.Productions.{MadeByProduction, ProductionMakes};

/// Operators bind two operands as the productions of the standard have them (ECMA-262 11.5 to 11.11, 11.14).
pub fn operators_bind_by_productions()
    ensures made { MadeByProduction }
    ensures makes { ProductionMakes }
{}

/// The words that continue an expression are those with which the rules go on behind a name, and behind a postfix
/// operator, on the next line too. Any other offends there, so that `;` is inserted before it (7.9.1).
pub fn other_words_offend()
    ensures others { OthersOffend }
    ensures continuing { ContinuingGoesOn }
    ensures others_behind_postfix { OthersOffendBehindPostfix }
    ensures continuing_behind_postfix { ContinuingGoesOnBehindPostfix }
{}

/// Behind a name, `;` is inserted before a token exactly where the standard has it so (7.9.1): the token offends, and is
/// `}` or the end or has a line end before it.
pub fn semicolons_stand_before_offending()
    ensures inserted { InsertedBehindName }
    ensures offending { OffendingIsInserted }
{}
