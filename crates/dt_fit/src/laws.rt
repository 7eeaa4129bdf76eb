ghost use Rattle.dt_fit.specs.Laws.{LowestIsOne, LowestIsOfAnswers, LowestIsLeast, PastAllFits, RowFits, ColoursSuffice, DisplacementsSuffice, ManyDisplacementsSuffice};

/// The lowest place that passes a test is one, no place that passes is below it, and it depends on the test's answers alone.
pub fn lowest_place_is_one()
    ensures one { LowestIsOne }
    ensures least { LowestIsLeast }
    ensures answers { LowestIsOfAnswers }
{}

/// A row always fits: at a place from which on no cell is used, and, beside `m` other rows, at one of the first
/// `4095 * m + 1` displacements, none of them another row's, or of the first `m + 1` colours. So 4,096 selectors get
/// colours below 4,096, or cells of one array below 2^24, and 16,384 rows with displacements of their own get cells below
/// 2^26.
pub fn rows_fit()
    ensures past { PastAllFits }
    ensures rows { RowFits }
    ensures colours { ColoursSuffice }
    ensures displacements { DisplacementsSuffice }
    ensures many { ManyDisplacementsSuffice }
{}
