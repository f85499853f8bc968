ghost use Rattle.std.specs.Prelude.{◌≡◌, ◌≢◌, IfErr, IfOk, MatchResult, length};
ghost use Rattle.rip_limits.specs.Limits.{greatest, AreInRange};
ghost use Rattle.rip_limits.specs.declared.version.Version.TheVariants.{Two};
ghost use Rattle.rip_html.specs.Pages.{PageOf};
ghost use Rattle.rip_manifest.specs.Manifest.{ManifestOf};
ghost use Rattle.rip_app.specs.App.{AppOf, IsAppRefusal, Loaded};
ghost use Rattle.rip_app.specs.Laws.{HasAnAnswer, HasOneApp, HasOneRefusal, IsNeverBoth, IsOrMemory};
ghost use Rattle.rip_app.specs.Script.{RefusesManifest, RefusesPage};
ghost use Rattle.rip_app.specs.declared.refusal.AppRefusal.{AppRefusal as AppRefusal'};

use crate::refusal::AppRefusal;
use crate::scripts::program_of;
use rip_base::{Bytes, Page};
use rip_html::read_page;
use rip_limits::{Language, Limits, Wire};
use rip_manifest::{Functions, Manifest, read_manifest};
use rip_tree::Program;
use std::alloc::Global;
use std::marker::Model;

/// An application: a page, the program of its scripts, and what its manifest says.
#[derive(Debug, Drop)]
pub struct App {
    page: Page,
    bytes: Bytes,
    program: Program,
    manifest: Manifest,
}

impl Model for App {
    ghost use Rattle.rip_app.specs.App.{Loaded};

    ghost Value = { Loaded };

    ghost view = { λ a. record { page = a.page; bytes = a.bytes; program = a.program; manifest = a.manifest } };
}

impl App {
    /// The page.
    pub fn page(&self) -> &Page
        ensures { result.now ≡ self.now.page }
    {
        &self.page
    }

    /// The program of the page's scripts.
    pub fn program(&self) -> &Program
        ensures { result.now ≡ self.now.program }
    {
        &self.program
    }

    /// The functions that the manifest declares, in the order of their names.
    pub fn functions(&self) -> &Functions
        ensures { result.now ≡ self.now.manifest.functions }
    {
        self.manifest.functions()
    }

    /// The limits of each session.
    pub fn limits(&self) -> &Limits
        ensures value { result.now ≡ self.now.manifest.limits }
        ensures in_range { AreInRange self.now.manifest.limits (greatest Two) }
    {
        self.manifest.limits()
    }

    /// The language that the page's scripts are in, as the manifest states it; language 1 in version 1.
    pub fn language(&self) -> Language
        ensures { result ≡ self.now.manifest.stated.language }
    {
        self.manifest.language()
    }

    /// The wire that browsers report on, as the manifest states it; wire 1 in version 1.
    pub fn wire(&self) -> Wire
        ensures { result ≡ self.now.manifest.stated.wire }
    {
        self.manifest.wire()
    }

    /// The bytes of the page, as they were read.
    pub fn bytes(&self) -> &[u8]
        ensures { result.now ≡ self.now.bytes }
    {
        self.bytes.as_slice()
    }

    /// How many nodes the page has, the document included.
    pub fn node_count(&self) -> u32
        ensures { result ≡ length self.now.page.nodes }
    {
        self.page.count()
    }
}

/// The application of this page and this manifest, or the first cause why they are none, in the order: the page, the
/// tokens and the tree of each script, the early errors of all scripts, the manifest. A page of 2^32 bytes or more is want
/// of memory, and so is a script of as many units.
pub fn load(alloc: Global, page: &[u8], manifest: &[u8]) -> Result<App, AppRefusal>
    // What is answered is so.
    ensures loaded { IfOk result (AppOf page.now manifest.now) }
    ensures refused { IfErr result (IsAppRefusal page.now manifest.now) }

    // What is so is answered, unless memory runs out.
    ensures only { (loaded : Loaded) → AppOf page.now manifest.now loaded
        → MatchResult result (λ made. made ≡ loaded) (λ e. e ≡ AppRefusal.Memory) }
    ensures first { (refusal : AppRefusal') → IsAppRefusal page.now manifest.now refusal
        → refusal ≢ AppRefusal.Memory
        → MatchResult result (λ _. ⊥) (IsOrMemory refusal) }
{
    application_of(alloc, page, manifest)
}

/// Any page and manifest have one application, or they are refused for one first cause, and never both.
pub fn applications_are_one()
    ensures some { HasAnAnswer }
    ensures application { HasOneApp }
    ensures refusal { HasOneRefusal }
    ensures apart { IsNeverBoth }
{}

/// The application, or the first cause why there is none.
fn application_of(alloc: Global, page: &[u8], manifest: &[u8]) -> Result<App, AppRefusal>
    ensures loaded { IfOk result (AppOf page.now manifest.now) }
    ensures refused { IfErr result (IsAppRefusal page.now manifest.now) }
{
    let bytes = Bytes::from_slice(alloc, page)?;
    let page = page_of(alloc, page)?;
    let program = program_of(alloc, &page)?;
    let manifest = manifest_of(alloc, manifest)?;
    Ok(App {
        page,
        bytes,
        program,
        manifest,
    })
}

/// The page that these bytes are.
fn page_of(alloc: Global, bytes: &[u8]) -> Result<Page, AppRefusal>
    ensures found { IfOk result (PageOf bytes.now) }
    ensures refused { IfErr result (RefusesPage bytes.now) }
{
    match read_page(alloc, bytes) {
        Ok(page) => Ok(page),
        Err(refusal) => Err(AppRefusal::of_page(refusal)),
    }
}

/// The manifest that these bytes are.
fn manifest_of(alloc: Global, bytes: &[u8]) -> Result<Manifest, AppRefusal>
    ensures found { IfOk result (ManifestOf bytes.now) }
    ensures refused { IfErr result (RefusesManifest bytes.now) }
{
    match read_manifest(alloc, bytes) {
        Ok(manifest) => Ok(manifest),
        Err(refusal) => Err(AppRefusal::of_manifest(refusal)),
    }
}
