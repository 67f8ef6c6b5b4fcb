ghost use Rattle.theory_grammar.specs.Scan.{EachLineIsRead, NoLineIsReadTwice, TokensAreFit};

/// Each line of bytes is read as one list of tokens with columns, and ends in one way.
pub fn each_line_is_read_in_one_way()
    ensures some { EachLineIsRead }
    ensures one { NoLineIsReadTwice }
{}

/// Names that are read are identifiers, and numbers are within the bound of literals.
pub fn tokens_are_fit()
    ensures { TokensAreFit }
{}
