ghost use Rattle.std.specs.Prelude.{◌≡◌, ◌+◌, length};
ghost use Rattle.rip_dom.specs.Order.{element_of_id, has_id, is_value};
ghost use Rattle.rip_dom.specs.Way.{Grows, StepsGoInOrder, behind, entered, found_at, is_end, step};

use crate::dom::Dom;
use crate::kinds::is_element;
use rip_base::Span;
use rip_values::Pool;

/// The name of the attribute by which an element is found.
const ID: [u16; 2] = [105, 100];

/// A step of the way through a document by links: a node is entered before its children, and left behind them.
#[derive(Clone, Copy, Debug)]
pub enum Step {
    Enter(u32),
    Leave(u32),
    End,
}

impl Dom {
    /// The first element of the document, in document order, whose attribute `id` has this text.
    pub fn find_id(&self, pool: &Pool, id: &[u16]) -> Option<u32>
        ensures { result ≡ element_of_id pool.now self.now id.now }
    {
        self.grows();
        let mut at = Step::Enter(0);
        for _i in 0..self.steps() {
            if is_end(at) {
                return None;
            }
            match self.id_at(pool, id, at) {
                Some(found) => return Some(found),
                None => at = self.step(0, at),
            }
        }
        None
    }

    // The node of this step, where it is the entrance of an element that has this id.
    fn id_at(&self, pool: &Pool, id: &[u16], at: Step) -> Option<u32>
        ensures { result ≡ found_at (has_id pool.now self.now id.now) at }
    {
        match at {
            Step::Enter(n) => {
                if self.has_id(pool, n, id) {
                    Some(n)
                } else {
                    None
                }
            }
            Step::Leave(_) => None,
            Step::End => None,
        }
    }

    /// As many steps as go through all nodes and to the end of the way.
    pub fn steps(&self) -> u64
        ensures { result ≡ length self.now.nodes + length self.now.nodes }
    {
        2 * u64::from(self.made())
    }

    /// The steps from the entrance of a node on enter it and all that is below it, in document order.
    pub fn steps_go_in_order(&self)
        ensures { StepsGoInOrder self.now }
    {
        self.grows();
    }

    // The way through the document comes to an end.
    pub(crate) fn grows(&self)
        ensures { Grows self.now }
    {
        self.children.are_listed();
    }

    /// The step after this one, on the way through the root and all that is below it.
    pub fn step(&self, root: u32, at: Step) -> Step
        ensures { result ≡ step self.now root at }
    {
        match at {
            Step::Enter(n) => entered(n, self.first_child(n)),
            Step::Leave(n) => {
                if n == root {
                    Step::End
                } else {
                    behind(self.next(n), self.parent(n))
                }
            }
            Step::End => Step::End,
        }
    }

    fn has_id(&self, pool: &Pool, n: u32, id: &[u16]) -> bool
        ensures { result ≡ has_id pool.now self.now id.now n }
    {
        is_element(self.kind(n)) && is_value(pool, id, self.attribute(pool, n, &ID))
    }
}

/// Whether the way is at its end.
pub fn is_end(at: Step) -> bool
    ensures { result ≡ is_end at }
{
    match at {
        Step::Enter(_) => false,
        Step::Leave(_) => false,
        Step::End => true,
    }
}

fn entered(n: u32, first: Option<u32>) -> Step
    ensures { result ≡ entered n first }
{
    match first {
        Some(child) => Step::Enter(child),
        None => Step::Leave(n),
    }
}

fn behind(next: Option<u32>, parent: Option<u32>) -> Step
    ensures { result ≡ behind next parent }
{
    match next {
        Some(next) => Step::Enter(next),
        None => match parent {
            Some(parent) => Step::Leave(parent),
            None => Step::End,
        },
    }
}

fn is_value(pool: &Pool, text: &[u16], value: Option<Span>) -> bool
    ensures { result ≡ is_value pool.now text.now value }
{
    match value {
        Some(value) => pool.get(value) == text,
        None => false,
    }
}
