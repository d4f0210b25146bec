ghost use Rattle.ic_pool.specs.Code.{CodesDetermine};

/// Formulas with equal codes are equal.
pub fn law_code_determines()
    ensures { CodesDetermine }
{}
