// Laws of lines and commands, the contracts of functions that do nothing.

ghost use Rattle.pz_debug_commands.specs.Laws.{OneCommand, EveryCommand, OneList, EveryList};

/// Each line has one command.
pub fn lines_have_one_command()
    ensures one { OneCommand }
    ensures some { EveryCommand }
{}

/// Each text has one list of commands.
pub fn texts_have_one_list()
    ensures one { OneList }
    ensures some { EveryList }
{}
