//! Reading a script from its text.

ghost use Rattle.std.specs.Prelude.{◌≡◌, IfOk, Ok};
ghost use Rattle.dsd_values.specs.Answers.{UnlessMemory};
ghost use Rattle.cable_world.specs.Reading.{script_of};
ghost use Rattle.cable_world.specs.ScriptTexts.{Says};
ghost use Rattle.cable_world.specs.declared.script.Script.{Script};

use crate::reading::ScriptSoFar;
use crate::script::Script;
use dsd_record::DraftFault;
use plain_lines::PlainLines;
use std::alloc::Global;

impl Script {
    /// Reads the script that a text says.
    pub fn read(alloc: Global, text: &[u8]) -> Result<Script, DraftFault>
        // What is read is said so.
        ensures found { IfOk result (λ script. Says script text.now) }

        // What is said so is read, unless memory runs out.
        ensures only { (script : Script) → Says script text.now → UnlessMemory DraftFault.Memory result (Ok script) }

        // It is refused at the first line that has a reason against it, for its first one.
        ensures exact { UnlessMemory DraftFault.Memory result (script_of text.now) }
    {
        Script::read_lines(alloc, text)
    }

    /// Reads it line by line.
    fn read_lines(alloc: Global, text: &[u8]) -> Result<Script, DraftFault>
        ensures { UnlessMemory DraftFault.Memory result (script_of text.now) }
    {
        let mut lines = PlainLines::new(text);
        let mut so_far = ScriptSoFar::Nothing;
        while let Some(line) = lines.next() {
            match so_far.take(alloc, &line) {
                Ok(()) => {}
                Err(fault) => return Err(fault),
            }
        }
        so_far.finish(lines.end())
    }
}
