ghost use Rattle.rip_eval_language.specs.Table.{table};

use crate::rows::{begin, finish_hosted, finish_own};
use rip_base::{NoMemory, Value};
use rip_eval_in_place::done;
use rip_eval_language::{HEIGHT, Source};
use rip_eval_rows::{Completed, Completion, Next, Part, Round, RoundWait, Rows, Wait};
use rip_eval_statements::round;
use rip_heap::{Heap, Host};
use std::marker::Model;

/// The rows of the language over a program whose literals are loaded, for the machine of any rows.
#[derive(Drop)]
pub(crate) struct Language<'a> {
    pub source: Source<'a>,
}

impl<'a> Model for Language<'a> {
    ghost use Rattle.rip_eval_language.specs.Reading.{Loaded};

    ghost Value = { Loaded };

    ghost view = { λ l. l.source };
}

impl Rows for Language<'_> {
    ghost use Rattle.rip_eval_language.specs.Table.{table as table_of};

    ghost table = { table_of };

    fn begin(&self, heap: &mut Heap, at: &Part, next: &mut Next) {
        *next = begin(&self.source, heap, at, &self.source.form(at.node));
    }

    fn at_once(&self, heap: &mut Heap, at: &Part, most: u64) -> Option<Completed> {
        if at.room == 0 || most == 0 {
            return None;
        }
        done(&self.source, heap, at, u32::from(HEIGHT), most)
    }

    fn round(&self, heap: &Heap, at: &Part, wait: &RoundWait, c: &Completion) -> Round {
        round(&self.source, heap, at, wait, c)
    }

    fn finish<H: Host>(
        &self,
        heap: &mut Heap,
        host: &mut H,
        at: &Part,
        wait: &Wait,
        values: &[Value],
        all: &[Value],
        c: &Completion,
        next: &mut Next,
    ) -> Result<(), NoMemory> {
        match wait {
            Wait::Own(wait) => *next = finish_own(&self.source, heap, at, wait, values, all, c),
            Wait::Hosted(wait) => {
                match finish_hosted(&self.source, heap, host, at, wait, values, all, c) {
                    Ok(then) => *next = then,
                    Err(e) => return Err(e),
                }
            },
        }
        Ok(())
    }
}
