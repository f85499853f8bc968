ghost use Rattle.std.specs.Prelude.{◌≡◌, pos, Some};
ghost use Rattle.rip_base.specs.declared.value.Limit.{Limit};
ghost use Rattle.rip_base.specs.declared.value.Limit.TheVariants.{Cells, Fuel};
ghost use Rattle.rip_base.specs.declared.value.Value.TheVariants.{Num, Undefined};
ghost use Rattle.rip_eval_rows.specs.declared.completion.Stop.TheVariants.{Limit as AtLimit};
ghost use Rattle.rip_eval_language.specs.Worked.{counting, closing, shows, Ended, Stopped, Open};

/// The script `"use strict";var i=0;while(i<3){i++;}` takes 29 units. After 11 units `i` is 0, and the loop, its block, the
/// statement and `i++` are open; after 12 it is 1, and the loop alone is open. With 28 units it ends in the loop's test.
pub fn counting_is_worked()
    ensures ends { shows counting 100 29 29 0 ≡ Some (Ended 0 2 (Some (Num (pos 3)))) }
    ensures more { shows counting 100 40 40 0 ≡ Some (Ended 11 2 (Some (Num (pos 3)))) }
    ensures spent { shows counting 100 28 28 0 ≡ Some
        (Stopped (AtLimit Fuel) 2 2 (Some (Num (pos 3)))) }
    ensures eleven { shows counting 100 29 11 0 ≡ Some (Open 4 2 (Some (Num (pos 0)))) }
    ensures twelve { shows counting 100 29 12 0 ≡ Some (Open 1 2 (Some (Num (pos 1)))) }
{}

/// The script `"use strict";function c(){var n=0;return function(){n++;return n;};}var f=c();f();var r=f();` leaves 2 in
/// `r`, and takes 25 units and 16 cells, the top scope included. The last unit is that of the last `n`: the declaration, the
/// call, the function and its `return` are open there. The last cell is that of its scope: the function is not running yet.
pub fn closing_is_worked()
    ensures ends { shows closing 16 25 25 2 ≡ Some (Ended 0 16 (Some (Num (pos 2)))) }
    ensures spent { shows closing 16 24 24 2 ≡ Some (Stopped (AtLimit Fuel) 4 16 (Some Undefined)) }
    ensures full { shows closing 15 25 25 2 ≡ Some (Stopped (AtLimit Cells) 2 15 (Some Undefined)) }
{}
