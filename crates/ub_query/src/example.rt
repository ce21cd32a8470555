ghost use Rattle.ub_query.specs.Examples.{RowsByY, TwoRowsByX, NoRowsCounted, SumsByX, SumOfGreatest, NoneBetween, OneNotGreater, NothingCounted, CountsByMeasure, NegativesByX, TitlesOfItems};

// Each function here does nothing, and its clause is a worked example of the definitions in specs/.

/// `select * from t order by y desc`
pub fn rows_by_y()
    ensures { RowsByY }
{}

/// `SELECT * FROM t ORDER BY x DESC, m LIMIT 2`
pub fn two_rows_by_x()
    ensures { TwoRowsByX }
{}

/// `SELECT COUNT(*), SUM(m) FROM t WHERE x > 9`
pub fn no_rows_counted()
    ensures { NoRowsCounted }
{}

/// `SELECT x, SUM(m) FROM t GROUP BY x`
pub fn sums_by_x()
    ensures { SumsByX }
{}

/// `SELECT SUM(m), MIN(x), MAX(x) FROM t`, over two of the greatest values
pub fn sum_of_greatest()
    ensures { SumOfGreatest }
{}

/// `SELECT m FROM t WHERE m BETWEEN 7 AND 5`
pub fn none_between()
    ensures { NoneBetween }
{}

/// `SELECT m FROM t WHERE NOT m > 4`
pub fn one_not_greater()
    ensures { OneNotGreater }
{}

/// `SELECT COUNT(*) FROM t LIMIT 0`
pub fn nothing_counted()
    ensures { NothingCounted }
{}

/// `SELECT m, COUNT(*) FROM t GROUP BY m, m ORDER BY COUNT(*) DESC`
pub fn counts_by_measure()
    ensures { CountsByMeasure }
{}

/// `SELECT x, m FROM t WHERE x < 0 ORDER BY x`, over a signed dimension
pub fn negatives_by_x()
    ensures { NegativesByX }
{}

/// The titles of a column, COUNT(*), SUM, MIN and MAX
pub fn titles_of_items()
    ensures { TitlesOfItems }
{}
