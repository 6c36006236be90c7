#![tactic(auto)]

// The script file: its rules, and what lowering reads of it.
ghost use Rattle.std.specs.Prelude.{◌≡◌};
ghost use Rattle.refusal.specs.Refusal.{refusal_of};
ghost use Rattle.script_records.specs.Layout.{layout_of};
ghost use Rattle.script.specs.Rules.{rules_hold, check_of};

use crate::rules::{ends_hold, kinds_supported, records_hold, strings_hold, too_deep};
use refusal::Refusal;
use script_records::layout::{ScriptFile, areas_hold};

pub mod forms;
mod record_rules;
mod rules;

// That the layout is the file's is a clause here, and no field of ScriptFile: what that reads holds of any layout, and says so.
#[tactic(auto, unfolding(crate::specs::Rules::rules_hold))]
fn rules_hold(script: &ScriptFile) -> bool
    requires { script.now.layout ≡ layout_of script.now.bytes.now }
    ensures { result ≡ rules_hold script.now.bytes.now }
{
    areas_hold(script.bytes) && ends_hold(script) && records_hold(script)
}

// Accepts a file of any content, or refuses it: by 4 for its bytes, 1, 2, 3, or 4 for its depth.
#[tactic(auto, using(crate::proofs::RuleLaws::check_rules))]
pub fn check(file: &[u8]) -> Result<(), Refusal>
    ensures { refusal_of result ≡ check_of file.now }
{
    if 1048576 < file.len() {
        return Err(Refusal::OverLimit);
    }
    let script = ScriptFile::new(file);
    if !rules_hold(&script) {
        return Err(Refusal::BrokenRule);
    }
    if !strings_hold(&script) {
        return Err(Refusal::NotUtf8);
    }
    if !kinds_supported(&script) {
        return Err(Refusal::Unsupported);
    }
    if too_deep(&script) {
        return Err(Refusal::OverLimit);
    }
    Ok(())
}
