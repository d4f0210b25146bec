ghost use Rattle.std.specs.Prelude.{◌≡◌, IfOk, chars, map};
ghost use Rattle.ic_laws.specs.Lines.{words_of as words_in};

use ic_laws::OutOfMemory;
use std::alloc::Global;

/// The words of a line: what stands between its tabs.
pub fn words_of(alloc: Global, line: &str) -> Result<Vec<&str>, OutOfMemory>
    ensures { IfOk result (λ words. map (λ w. chars w.now) words.items
        ≡ words_in (chars line.now)) }
{
    Ok(line.split('\t').collect(alloc)?)
}
