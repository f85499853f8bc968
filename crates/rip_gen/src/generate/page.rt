//! The page and the manifest of generated work.
ghost use Rattle.std.specs.Prelude.{IfOk};
ghost use Rattle.rip_gen.specs.Form.{IsForm};

use rip_app::{App, load};
use rip_base::NoMemory;
use std::alloc::Global;

/// A form of an order: nodes 7 and 8 are its text inputs, 9 a select of two options, 14 the button that sends it.
pub const PAGE: &[u8] =
    b"<!DOCTYPE html>\n<html><head><title>Order</title></head><body><form id=\"f\"><input id=\"name\" maxlength=\"20\"><input id=\"count\" value=\"1\"><select id=\"size\"><option>S</option><option>M</option></select><button id=\"go\">Order</button></form><p id=\"total\"></p><script>\n\"use strict\";\nfunction $(id) { return document.getElementById(id); }\nfunction total() {\n  var n = parseInt($(\"count\").value, 10);\n  return isNaN(n) ? 0 : n * ($(\"size\").value === \"M\" ? 12 : 10);\n}\n$(\"count\").addEventListener(\"input\", function () { $(\"total\").textContent = \"Total \" + total(); }, false);\n$(\"go\").addEventListener(\"click\", function (e) {\n  e.preventDefault();\n  ripley.call(\"order\", [$(\"name\").value, total()], function (r) { $(\"total\").textContent = \"Order \" + r; });\n}, false);\n</script></body></html>\n";

/// The manifest of that page, with its one function.
pub const MANIFEST: &[u8] =
    b"{\"version\":1,\"functions\":{\"order\":[\"push\",\"orders\"]},\"limits\":{}}";

/// The application of the page and the manifest.
pub(crate) fn load_form(alloc: Global) -> Result<App, NoMemory>
    ensures { IfOk result IsForm }
{
    match load(alloc, PAGE, MANIFEST) {
        Ok(app) => Ok(app),
        Err(_) => Err(NoMemory),
    }
}
