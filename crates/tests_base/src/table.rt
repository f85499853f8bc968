ghost use Rattle.rip_table.specs.Table.{IsTable};

use rip_table::*;
use std::alloc::Global;
use std::test::Fail;

// An identifier, far from those of the sessions before and after.
fn id_of(ordinal: u32) -> u128 {
    (ordinal as u128) << 96 | 0x4000_8000
}

// Opens so many sessions, and says whether each has the next ordinal.
fn opens_all(alloc: Global, table: &mut Table<u32>, sessions: u32) -> bool
    requires { IsTable table.old }
    ensures { IsTable table.new }
{
    for number in 0..sessions {
        match table.insert(alloc, id_of(number), number) {
            Ok(ordinal) => {
                if ordinal != number + 1 {
                    return false;
                }
            }
            Err(_) => return false,
        }
    }
    true
}

// Ends the session where it is live.
fn ends(table: &mut Table<u32>, id: u128) -> bool
    requires { IsTable table.old }
    ensures { IsTable table.new }
{
    let is_live = table.get(id).is_some();
    if is_live {
        table.end(id);
    }
    is_live
}

#[test]
fn an_ended_session_stays(rt: HostRuntime) -> Result<(), Fail> {
    let alloc: Global = rt.alloc();
    let mut table = Table::make(alloc, 2)?;
    assert!(rt; opens_all(alloc, &mut table, 2));
    assert!(rt;
        matches!(
            table.insert(alloc, id_of(1), 7),
            Err(InsertRefused::Full(7))
        )
    );
    assert!(rt; ends(&mut table, id_of(0)));
    assert!(rt; !ends(&mut table, id_of(0)));
    assert_eq!(rt; (table.count(), table.live()), (2, 1));
    assert_eq!(rt; table.at(1), None);
    assert_eq!(rt; table.any(id_of(0)), Some(&0));
    assert_eq!(rt; table.ordinal(id_of(0)), Some(1));
    assert!(rt;
        matches!(
            table.insert(alloc, id_of(0), 7),
            Err(InsertRefused::Clash(7))
        )
    );
    assert!(rt; matches!(table.insert(alloc, id_of(2), 7), Ok(3)));
    if let Some(value) = table.at_mut(3) {
        *value = 8;
    }
    assert_eq!(rt; table.at(3), Some(&8));
    if let Some(value) = table.get_mut(id_of(2)) {
        *value = 9;
    }
    assert_eq!(rt; table.get(id_of(2)), Some(&9));
    Ok(())
}
