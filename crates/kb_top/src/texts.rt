//! What is said of a text that is no script.
ghost use Rattle.std.specs.Prelude.{◌≡◌, ◌≢◌, IfOk, OnOk, string_bytes};
ghost use Rattle.kb_top.specs.Inputs.{why_text, fault_text};

use kb_edge::Memory;
use kb_script::{ScriptFault, Why};
use std::alloc::Global;

fn why_text(why: Why) -> &'static str
    ensures { result.now ≡ why_text why }
{
    match why {
        Why::Text => "Text",
        Why::Word => "Word",
        Why::Later => "Later",
        Why::Count => "Count",
        Why::Number => "Number",
        Why::Hex => "Hex",
        Why::Name => "Name",
        Why::Choice => "Choice",
        Why::Device => "Device",
        Why::Order => "Order",
    }
}

/// The first bad line with its reason, or that the script is too long. Want of memory has no text.
pub fn fault_text(alloc: Global, fault: ScriptFault) -> Result<String, Memory>
    ensures text { IfOk result (λ text. string_bytes text ≡ fault_text fault) }
    ensures memory { OnOk result (fault ≢ ScriptFault.Memory) }
{
    match fault {
        ScriptFault::TooLong => Ok(String::from_str(alloc, "script too long\n")?),
        ScriptFault::BadLine { line, why } => {
            let why = why_text(why);
            Ok(format!(in alloc; "line {line}: {why}\n")?)
        }
        ScriptFault::Memory => Err(Memory),
    }
}
