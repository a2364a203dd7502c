//! Each function here does nothing: its contract is a law, which holds for all values.

ghost use Rattle.bitlines.specs.LineLaws.{LinesReadBack};
ghost use Rattle.bitlines.specs.GrammarLaws.{LinesMean};
ghost use Rattle.bitlines.specs.OutputLaws.{OneOutput, OneLineEach};
ghost use Rattle.bitlines.specs.StepLaws.{OnlyTargetChanges, RefusedChangesNothing};

/// Two outputs of one input, neither with a line that says that an allocation failed, are equal:
/// but for memory, what the program writes is a function of what it reads.
///
/// ```
/// let (mut first, mut second) = (Vec::new(alloc), Vec::new(alloc));
/// program::run_text(alloc, &mut "len 0".as_bytes(), &mut first)?;
/// program::run_text(alloc, &mut "len 0".as_bytes(), &mut second)?;
/// bitlines::laws::one_output();
/// assert!(rt; first == second);
/// ```
pub fn one_output()
    ensures { OneOutput }
{}

/// The lines of an output are the texts of the replies, in the order of the input's lines
/// and as many. So a reply has no line end in it, and line `n` of the output replies to
/// line `n` of the input.
///
/// ```
/// let mut output = Vec::new(alloc);
/// program::run_text(alloc, &mut "len 0\n\nas_slice 0".as_bytes(), &mut output)?;
/// bitlines::laws::one_line_each();
/// assert_eq!(rt; output.as_slice(), "0\nF8 not a command\n-\n".as_bytes());
/// ```
pub fn one_line_each()
    ensures { OneLineEach }
{}

/// The line that a command is written as stands for that command. Its numbers must fit a
/// `usize`, a list of ends must have an end, and the compact text of its JSON value must
/// be read as that value.
///
/// ```
/// let command = lines::parse_line(alloc, b"put 0 64")?;
/// bitlines::laws::lines_read_back();
/// assert!(rt; matches!(command, Command::Change(Change::Put { set: 0, bit: 64 })));
/// ```
pub fn lines_read_back()
    ensures { LinesReadBack }
{}

/// A line is read as a command exactly if it means that command, which is said without a parser:
/// the command's name, and after one space each a spelling of each of its arguments.
///
/// ```
/// let command = lines::parse_line(alloc, b"put 0 0064")?;
/// bitlines::laws::lines_mean();
/// assert!(rt; matches!(command, Command::Change(Change::Put { set: 0, bit: 64 })));
/// ```
pub fn lines_mean()
    ensures { LinesMean }
{}

/// A command leaves each set as it was but the one that its first number names, and there are
/// as many sets as before.
///
/// ```
/// let mut sets = [FixedBitSet::with_capacity(alloc, 70)?, FixedBitSet::from_iter(alloc, [3])?];
/// let insert = Command::Change(Change::Insert { set: 0, bit: 64 });
/// assert!(rt; matches!(commands::apply(alloc, &mut sets, &insert, 100), Reply::Done));
/// bitlines::laws::only_target_changes();
/// assert!(rt; sets[1].ones().eq([3]));
/// ```
pub fn only_target_changes()
    ensures { OnlyTargetChanges }
{}

/// A refused command leaves every set as it was, unless it is `extend`, which keeps the items
/// before the one that it is refused for.
///
/// ```
/// let mut sets = [FixedBitSet::from_iter(alloc, [3])?];
/// let past = Command::Change(Change::Insert { set: 0, bit: 70 });
/// let reply = commands::apply(alloc, &mut sets, &past, 100);
/// assert!(rt; matches!(reply, Reply::Refused(Refusal::Position)));
/// bitlines::laws::refused_changes_nothing();
/// assert!(rt; sets[0].ones().eq([3]));
/// ```
pub fn refused_changes_nothing()
    ensures { RefusedChangesNothing }
{}
