//! Laws of contexts. Each function's contract is a law, and its body is empty: there is nothing to compute.
ghost use Rattle.gl_context.specs.Arguments.{CommandsHaveTexels};
ghost use Rattle.gl_context.specs.Streams.{StreamsBeginWithDefaults, StreamsGoOnByIssue, EditsAreAtMostCommands};
ghost use Rattle.gl_context.specs.Valid.{ContextsOfStreamsAreValid};
ghost use Rattle.gl_context.specs.Edits.{EditsNeverFall, EqualEditsMeanEqualImages};
ghost use Rattle.gl_context.specs.Stacks.{PopUndoesPush};
ghost use Rattle.gl_context.specs.Refused.{RefusedCommandsChangeNothing};
ghost use Rattle.gl_context.specs.Blocks.{OpenBlocksAreOfTheirCommands, DrawnBlocksAreOfTheirCommands};
ghost use Rattle.gl_context.specs.Elements.{CommandsSetOneElement, ElementsKeepTheirLastSet, ElementsBeginWithDefaults};

/// A command whose fields are in their ranges has all texels, which is what `Context::issue` asks of it.
pub fn commands_have_texels()
    ensures { CommandsHaveTexels }
{}

/// The contexts of a stream begin with the defaults, and each further one is what `Context::issue` makes of the one before it. An edit
/// number is at most the number of commands, so a stream of fewer than 2^32 commands may always go on.
pub fn streams_go_on_by_issue()
    ensures first { StreamsBeginWithDefaults }
    ensures next { StreamsGoOnByIssue }
    ensures edits { EditsAreAtMostCommands }
{}

/// Every context of a stream has legal codes, a bound texture that exists, 64 private images within their bounds, stacks of at most 32
/// matrices, and what is declared.
pub fn contexts_of_streams_are_valid()
    ensures { ContextsOfStreamsAreValid }
{}

/// The edit number of a private texture never falls along a stream, and where it is the same so is the image.
pub fn edits_tell_images()
    ensures rising { EditsNeverFall }
    ensures same { EqualEditsMeanEqualImages }
{}

/// A matrix that is pushed and popped leaves the context as it was.
pub fn pop_undoes_push()
    ensures { PopUndoesPush }
{}

/// An accepted command changes no element but the one that it marks. So an element's value after a stream is that which its last accepted
/// setter left, or else the default.
pub fn commands_set_one_element()
    ensures one { CommandsSetOneElement }
    ensures kept { ElementsKeepTheirLastSet }
    ensures first { ElementsBeginWithDefaults }
{}

/// A refused command changes nothing of its context but the fault list, and does nothing beyond it.
pub fn refused_commands_change_nothing()
    ensures { RefusedCommandsChangeNothing }
{}

/// The open block of a context, and the block that an accepted `End` draws, has the mode of the last accepted `Begin` before it and the
/// vertices that were accepted since, each with the colour and the texture coordinate that were current.
pub fn blocks_are_of_their_commands()
    ensures opened { OpenBlocksAreOfTheirCommands }
    ensures drawn { DrawnBlocksAreOfTheirCommands }
{}
