ghost use Rattle.ub_planning.specs.Examples.{NothingAsked, NothingToRead, ScanByMeasure, SweepByY, SweepOfGroups};

// Each function here does nothing, and its clause is a worked example of the definitions in specs/.

/// `SELECT * FROM t ORDER BY y DESC LIMIT 2`
pub fn sweep_by_y()
    ensures { SweepByY }
{}

/// `SELECT * FROM t ORDER BY m, x`
pub fn scan_by_measure()
    ensures { ScanByMeasure }
{}

/// `SELECT * FROM t LIMIT 0`
pub fn nothing_asked()
    ensures { NothingAsked }
{}

/// `SELECT m FROM t WHERE x > 9 AND x < 3`
pub fn nothing_to_read()
    ensures { NothingToRead }
{}

/// `SELECT x, COUNT(*) FROM t GROUP BY x LIMIT 1`
pub fn sweep_of_groups()
    ensures { SweepOfGroups }
{}
