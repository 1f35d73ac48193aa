// Laws on the definitions: the contract of each function is one, and its body is empty.
ghost use Rattle.mz_layout_tables.specs.RowWords.{RightWordsSayParams};
ghost use Rattle.mz_layout_tables.specs.WordsPass.{WrittenParamsPass, WrittenRowsPass};

/// Words that are right say right parameters, with no bit left out.
pub fn right_words_say_params()
    ensures { RightWordsSayParams }
{}

/// The words that are written for right parameters, and for a term's row, pass what is asked of them.
pub fn written_words_pass()
    ensures params { WrittenParamsPass }
    ensures rows { WrittenRowsPass }
{}
