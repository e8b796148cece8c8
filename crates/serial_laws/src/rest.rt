//! The serial rest of a run, letter by letter, and its end.
ghost use Rattle.serial_laws.specs.SerialLaws.{TheRestBegins, ALineIsCarriedOut, NoLetterIsNeeded, TheNextLetterLeadsOn, TheRunIsTheMachines};

/// After the letters that were given the rest begins between two cycles.
pub fn the_rest_begins()
    ensures { TheRestBegins }
{}

/// A line that is due is carried out.
pub fn a_line_is_carried_out()
    ensures { ALineIsCarriedOut }
{}

/// Where nothing has changed no letter is needed, as when it is found that no line is left.
pub fn no_letter_is_needed()
    ensures { NoLetterIsNeeded }
{}

/// A letter of the workers that is next leads on.
pub fn the_next_letter_leads_on()
    ensures { TheNextLetterLeadsOn }
{}

/// Once nothing is left, the run is that of the core machine with all its lines and letters.
pub fn the_run_is_the_machines()
    ensures { TheRunIsTheMachines }
{}
