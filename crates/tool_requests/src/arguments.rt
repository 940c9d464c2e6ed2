//! The choice that the program's arguments make.

ghost use Rattle.tool_requests.specs.Choice.{IsChosen};

use crate::choice::Chosen;
use crate::number::number_of;

/// Returns the choice of the words after the program's name: no words ask for lines, and `recode` with a number asks
/// for a copy.
pub fn chosen(words: &[String]) -> Chosen
    ensures { IsChosen words.now result }
{
    if words.is_empty() {
        return Chosen::Lines;
    }
    if words.len() != 2 || words[0].as_str() != "recode" {
        return Chosen::Usage;
    }
    match number_of(words[1].as_str()) {
        Some(count) => Chosen::Raw(count as usize),
        None => Chosen::Usage,
    }
}
