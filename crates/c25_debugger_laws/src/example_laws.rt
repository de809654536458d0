//! A worked example of these definitions, the contract of a function with an empty body.

ghost use Rattle.std.specs.Prelude.{◌≡◌, None, Some, false, map, pos, true};
ghost use Rattle.c25_meaning_assembly.specs.Listing.{word_column};
ghost use Rattle.c25_meaning_linking.specs.Words.{name_value, program_lines};
ghost use Rattle.c25_debugger_laws.specs.Example.{call_entry, delay, delay_file, example_lines, example_modules, example_places, expected_lines, first_column, line_at_address, main_module, second_column};
ghost use Rattle.c25_debugger_laws.specs.StatementAnswers.{statement_there};
ghost use Rattle.std.specs.Option.{option_map};
ghost use Rattle.c25_statement_laws.specs.ExportedNames.{exported_from};
ghost use Rattle.c25_statement_laws.specs.ListedWords.{is_open, listed_address};
ghost use Rattle.c25_statement_laws.specs.StatementLines.{line_of, traced_from};

/// Two sources of which one calls a routine of the other. The routine's name is 0043h by the entry of its source
/// (`by_entry`) and by the symbols of the modules (`by_symbol`). The lines of the program are the same by the
/// statements of the sources (`by_statements`) and by the marks of the modules (`by_marks`). The statement at 0043h is RET
/// on line 5 of delay.asm (`there`), and none begins at 003Fh (`nowhere`). The listing shows the first
/// word of the call without `'` (`first_word`, `plain`), and the second, which is loaded at 003Fh (`address`), with one
/// (`second_word`, `relocated`).
pub fn example_is_as_written()
    ensures by_entry { exported_from example_modules example_places 0 example_modules example_lines delay ≡ pos 0x43 }
    ensures by_symbol { name_value example_modules example_places delay ≡ pos 0x43 }
    ensures by_statements { map line_of (traced_from example_modules example_places 0 example_modules example_lines) ≡ expected_lines }
    ensures by_marks { program_lines example_modules example_places ≡ expected_lines }
    ensures first_word { word_column main_module 0 0 ≡ first_column }
    ensures second_word { word_column main_module 0 1 ≡ second_column }
    ensures plain { is_open main_module call_entry 0 ≡ false }
    ensures relocated { is_open main_module call_entry 1 ≡ true }
    ensures there { option_map line_of (statement_there (traced_from example_modules example_places 0 example_modules example_lines) 0x43) ≡ Some (line_at_address 0x43 1 delay_file 5) }
    ensures nowhere { statement_there (traced_from example_modules example_places 0 example_modules example_lines) 0x3F ≡ None }
    ensures address { listed_address example_modules example_places 0 main_module call_entry 1 ≡ 0x3F }
{}
