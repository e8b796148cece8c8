//! The report of an export, made from its numbers.
use super::row::Form;
use ses_io::NoMemory;
use std::alloc::Global;

/// So many of its cycles rolled, and in each of them so many tracks were heard. Cycles count from 1, and what they played from 0.
pub(crate) fn report_of(
    alloc: Global,
    form: &Form,
    rolled: usize,
    tracks: usize,
) -> Result<String, NoMemory> {
    let notes = " h0/-".repeat(alloc, tracks)?;
    let mut text = format!(in alloc;
        "report 1\nformat 48000 {} {} {} {}\nedit 1 locate {}\nedit 2 roll\n",
        form.bits, form.channels, form.block, form.cycles, form.from
    )?;
    for (cycle, seq) in (1..=rolled).zip(0..rolled) {
        let line = format!(in alloc; "cycle {cycle} 2 2 rolling 1 {seq}{notes}\n")?;
        text.push_str(line.as_str())?;
    }
    let end = format!(in alloc; "end {rolled}\n")?;
    text.push_str(end.as_str())?;
    Ok(text)
}
