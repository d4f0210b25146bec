ghost use Rattle.std.specs.Prelude.{List, ℕ, ◌≡◌, ◌↔◌};
ghost use Rattle.ic_laws.specs.Lines.{FallsIntoLines, lines_of};

/// Bytes fall into lines exactly as the function that finds the lines in them answers: the lines joined by line feeds
/// are the bytes, except for one carriage return directly before each line feed. So they fall into lines in one way.
pub fn law_lines()
    ensures { (bytes : List ℕ) (lines : List (List ℕ)) → FallsIntoLines bytes lines ↔ lines_of bytes
        ≡ lines }
{}
