//! Tests of what reads a line: its tokens (`c25_text`), its operands (`c25_expr`), and substitution in it
//! (`c25_substitution`); and of what is shown of a line that is refused: its part (`c25_places`) and the remark
//! (`c25_hints`), and of a file that is refused (`c25_file_hints`); and of what is warned of in a line
//! (`c25_line_warnings`, `c25_uses`).
#![tactic(auto)]

#[cfg(test)]
mod file_remarks;
#[cfg(test)]
mod lines;
#[cfg(test)]
mod operands;
#[cfg(test)]
mod refused_parts;
#[cfg(test)]
mod remarks;
#[cfg(test)]
mod substitution;
#[cfg(test)]
mod values;
#[cfg(test)]
mod warnings;
