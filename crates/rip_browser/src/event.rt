ghost use Rattle.std.specs.Prelude.{◌≡◌, ◌≤◌, ◌<◌, IfOk, IfSome, OnOk, Err, false, length, None};
ghost use Rattle.rip_heap.specs.Conversions.{span_of};
ghost use Rattle.rip_heap.specs.Growth.{Grows};
ghost use Rattle.rip_heap.specs.World.{first_node};
ghost use Rattle.rip_forms.specs.Reports.{is_past, refusal_of, text_of};
ghost use Rattle.rip_host.specs.Visit.{Fits};
ghost use Rattle.rip_browser.specs.Events.{browser_after, is_click, most_steps, settled, steps_of, turned_by, type_of, world_after};
ghost use Rattle.rip_browser.specs.Steps.{OpensAfter, Reported, begun};

use crate::flow::Flow;
use rip_base::{EventKind, Limit, Refused, Report};
use rip_dom::Dom;
use rip_forms::{FormPart, legal, part_of};
use rip_heap::Heap;
use rip_host::{Browser, bubbles};
use rip_replica::items::ReportRefused;
use rip_values::{FixedText, Pool};

/// The type of events of this kind.
pub(crate) fn type_of(kind: EventKind) -> FixedText
    ensures { result ≡ type_of kind }
{
    match kind {
        EventKind::Click => FixedText::Click,
        EventKind::Focus => FixedText::Focus,
        EventKind::Blur => FixedText::Blur,
        EventKind::Submit => FixedText::Submit,
        EventKind::Change => FixedText::Change,
        EventKind::Input => FixedText::Input,
    }
}

/// The checkbox that the event turns over.
pub(crate) fn turned_by(dom: &Dom, pool: &Pool, report: &Report) -> Option<u32>
    ensures { result ≡ turned_by pool.now dom.now report.now }
{
    if is_click(report.kind) && matches!(part_of(dom, pool, report.node), FormPart::Checkbox) {
        Some(report.node)
    } else {
        None
    }
}

fn is_click(kind: EventKind) -> bool
    ensures { result ≡ is_click kind }
{
    matches!(kind, EventKind::Click)
}

/// Whether the text that the report brings would pass the limit of units.
pub(crate) fn is_past(pool: &Pool, report: &Report) -> bool
    ensures { result ≡ is_past pool.now report.now }
{
    match report.kind {
        EventKind::Input => text_length(report) > pool.free() as usize,
        _ => false,
    }
}

// How long the text is that the report brings.
fn text_length(report: &Report) -> usize
    ensures { result ≡ length (text_of report.now) }
{
    match &report.text {
        Some(text) => text.len(),
        None => 0,
    }
}

/// Does to texts and controls what a legal report says.
pub(crate) fn take_effect(browser: &mut Browser, heap: &mut Heap, report: &Report)
    requires fits { Fits browser.old heap.old }
    requires node { report.now.node < length browser.old.dom.nodes }
    requires room { is_past heap.old.pool report.now ≡ false }
    ensures heap { heap.new ≡ world_after heap.old browser.old report.now }
    ensures browser { browser.new ≡ browser_after heap.old browser.old report.now }
    ensures fits { Fits browser.new heap.new }
    ensures grows { Grows heap.old heap.new }
{
    let _made = browser.dom.made();
    let alloc = browser.alloc;
    match heap.with_texts(&mut |pool| browser.forms.apply(alloc, &browser.dom, pool, report)) {
        Ok(()) | Err(_) => {}
    }
}

/// Puts a checkbox that the event turned over back, where what the event does was prevented.
pub(crate) fn settle(browser: &mut Browser, heap: &Heap, turned: Option<u32>, event: u32)
    requires { Fits browser.old heap.now }
    ensures settled { browser.new ≡ settled turned event browser.old }
    ensures fits { Fits browser.new heap.now }
{
    let _ = heap;
    match turned {
        Some(n) if browser.prevented(event) && n < browser.forms.room() => browser
            .forms
            .undo_click(n),
        _ => {}
    }
}

/// Does what an event does before its flow, and begins the flow. Memory is wanting only where the flow has too little room
/// for the document, which is seen before all else.
pub(crate) fn report(
    browser: &mut Browser,
    heap: &mut Heap,
    report: &Report,
    flow: &mut Flow,
) -> Result<(), ReportRefused>
    requires { Fits browser.old heap.old }
    ensures fits { Fits browser.new heap.new }
    ensures grows { Grows heap.old heap.new }
    ensures reports { Reported report.now heap.old browser.old result heap.new browser.new
        flow.new }
    ensures steps { OnOk result (steps_of flow.new ≤ most_steps) }
    ensures memory { result ≡ Err ReportRefused.Memory → flow.old.nodes < browser.old.dom.limit }
    ensures room { flow.new.nodes ≡ flow.old.nodes }
{
    if let Err(kind) = legal(&browser.dom, &browser.forms, heap.pool(), report) {
        return Err(ReportRefused::Illegal(kind));
    }
    if is_past(heap.pool(), report) {
        return Err(ReportRefused::Limit(Limit::Units));
    }
    if browser.dom.limit() > flow.nodes {
        return Err(ReportRefused::Memory);
    }
    let turned = turned_by(&browser.dom, heap.pool(), report);
    let event = open(browser, heap, report)?;
    begin(browser, heap, report, event, flow);
    flow.turned = turned;
    Ok(())
}

/// Opens the event of a legal report, and then does what the report says, in that order. Where the cell of the event would
/// pass the limit, the effect is done all the same.
fn open(browser: &mut Browser, heap: &mut Heap, report: &Report) -> Result<u32, ReportRefused>
    requires fits { Fits browser.old heap.old }
    requires node { report.now.node < length browser.old.dom.nodes }
    requires room { is_past heap.old.pool report.now ≡ false }
    ensures fits { Fits browser.new heap.new }
    ensures grows { Grows heap.old heap.new }
    ensures opened { OpensAfter report.now heap.old browser.old result heap.new browser.new }
{
    let _made = browser.dom.made();
    let alloc = browser.alloc;
    let kind = type_of(report.kind).span();
    match browser.open_event(alloc, heap, kind, report.node) {
        Ok(event) => {
            take_effect(browser, heap, report);
            Ok(event)
        }
        Err(Refused::Limit(limit)) => {
            take_effect(browser, heap, report);
            Err(ReportRefused::Limit(limit))
        }
        Err(Refused::Memory) => unreachable!(),
    }
}

/// Begins the flow of an event that was opened.
fn begin(browser: &Browser, heap: &Heap, report: &Report, event: u32, flow: &mut Flow)
    requires { browser.now.dom.limit ≤ flow.old.nodes }
    ensures begun { flow.new ≡ begun browser.now heap.now report.now event flow.old }
    ensures steps { steps_of flow.new ≤ most_steps }
{
    let _made = browser.dom.made();
    let kind = type_of(report.kind).span();
    let bubbling = bubbles(heap, kind);
    flow.cursor.begin(&browser.dom, kind, report.node, bubbling);
    flow.event = event;
    flow.over = false;
}
