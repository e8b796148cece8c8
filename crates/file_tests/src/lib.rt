//! Values from outside for WAV files, heads of inputs, the parts of sessions, and their texts.
#![tactic(auto)]

#[cfg(test)]
mod input_heads;
#[cfg(test)]
mod parts;
#[cfg(test)]
mod session_parts;
#[cfg(test)]
mod session_texts;
#[cfg(test)]
mod wav_files;
