// The measure of a calendar.
ghost use Rattle.std.specs.Prelude.{◌≡◌};
ghost use Rattle.toml.specs.View.{table_view};
ghost use Rattle.shift_calendar.specs.Calendars.{measure_of_word, measure_at};

use toml::Table;
use toml_tables::string_at;
use trend_num::Measure;

// Returns the measure that a word names.
fn measure_of(word: &str) -> Option<Measure>
    ensures { result ≡ measure_of_word word.now }
{
    match word {
        "area" => Some(Measure::Area),
        "avg" => Some(Measure::Avg),
        "total" => Some(Measure::Total),
        "low" => Some(Measure::Low),
        "high" => Some(Measure::High),
        "count" => Some(Measure::Count),
        "first" => Some(Measure::First),
        "last" => Some(Measure::Last),
        _ => None,
    }
}

// Returns the measure of a table, if its word names one.
pub(crate) fn measure_at(table: &Table) -> Option<Measure>
    ensures { result ≡ measure_at (table_view table.now) }
{
    match string_at(table, "measure") {
        Some(word) => measure_of(word),
        None => None,
    }
}
