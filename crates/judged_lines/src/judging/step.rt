//! A node's step on a referee.

ghost use Rattle.std.specs.Prelude.{◌≡◌, ◌<◌, ◌⊎◌, ◌++◌, List, length, All, IfOk, IsSome, Ok};
ghost use Rattle.sgf_outline.specs.Tree.{Node, Property, told_property};
ghost use Rattle.board_points.specs.Point.{IsRectOn};
ghost use Rattle.go_board.specs.State.{set_up as set_up_rule};
ghost use Rattle.judged_lines.specs.Step.{step};
ghost use Rattle.judged_lines.specs.inner.Gathered.{IsGathered, ComesAs};
ghost use Rattle.judged_lines.specs.inner.Judging.{IsStepped, setup_effect};
ghost use Rattle.judged_lines.specs.Judgement.{IsStepOf};

use crate::judging::contents::{Contents, Moves, Setup, move_value};
use go_board::{Colour, Past, Play, Reason, Referee, SetupOp, TurnFault};
use sgf_tree::{NextNode, SequenceNodes};

/// What a node did to the board.
#[derive(Clone, Copy)]
pub enum Effect {
    /// It has no moves and no stones.
    Nothing,
    /// It set up stones.
    Stones,
    /// It has one move: this player's play.
    Play(Colour, Play),
}

/// A node's step that was taken, and the node's comment.
#[derive(Clone, Copy)]
pub struct LegalStep<'a> {
    /// What the node did to the board.
    pub effect: Effect,
    /// The first value of the node's first C.
    pub comment: Option<&'a [u8]>,
}

/// The place of a node that `SequenceNodes::next` took.
pub(crate) fn place_of(next: &NextNode<'_>) -> usize
    ensures { (node : Node) (left : List Property) → ComesAs node left next.now → node.place ≡ result }
{
    match next {
        NextNode::Led { place, .. } => *place,
        NextNode::Empty { place } => *place,
        NextNode::Unread { place, .. } => *place,
    }
}

/// Takes the step of a node, which adds one state: the node's move is played, its stones and its player are set up, or nothing changes.
/// `next` is the node, as `SequenceNodes::next` took it; the properties that are left of it are taken off. `operations` is a buffer.
///
/// If the node is illegal, the first reason is returned. After a refusal the referee is unchanged.
// Each case has its own call, so that what its contents don't hold drops out. With one call, the input `deep` takes 16 % more instructions.
#[inline(always)]
pub(crate) fn take_step<'a, P: Past>(
    referee: &mut Referee<P>,
    next: NextNode<'a>,
    nodes: &mut SequenceNodes<'_, 'a>,
    operations: &mut Vec<SetupOp>,
) -> Result<LegalStep<'a>, TurnFault>
    ensures stepped { (node : Node) → ComesAs node nodes.old.properties next.entry
        → IsStepped (step referee.old.present node) referee.old referee.new result }
    ensures told { (node : Node) → ComesAs node nodes.old.properties next.entry
        → IfOk result (IsStepOf referee.old.present.colouring.side node) }
    ensures left { nodes.new.nodes ≡ nodes.old.nodes }
{
    match next {
        NextNode::Led { letter, value, .. } => {
            take_contents(referee, Contents::of_lone(letter, value), &[])
        }
        NextNode::Empty { .. } => take_contents(referee, Contents::nothing(), &[]),
        NextNode::Unread { front, .. } => take_any_step(referee, front, nodes, operations),
    }
}

/// Takes the step of a node of which all is gathered, in one pass over its properties. `front` is the first of them, if it was recognized:
/// its letter and its only raw value. The others are still left in `nodes`, and are taken off.
#[inline(never)]
fn take_any_step<'a, P: Past>(
    referee: &mut Referee<P>,
    front: Option<(u8, &'a [u8])>,
    nodes: &mut SequenceNodes<'_, 'a>,
    operations: &mut Vec<SetupOp>,
) -> Result<LegalStep<'a>, TurnFault>
    ensures stepped { (node : Node) → node.properties ≡ told_property front.entry ++ nodes.old.properties
        → IsStepped (step referee.old.present node) referee.old referee.new result }
    ensures told { (node : Node) → node.properties ≡ told_property front.entry ++ nodes.old.properties
        → IfOk result (IsStepOf referee.old.present.colouring.side node) }
    ensures left { nodes.new.nodes ≡ nodes.old.nodes }
{
    let size = referee.board().size();
    operations.clear();
    let mut contents = match front {
        Some((letter, raw)) => Contents::of_lone(letter, raw),
        None => Contents::nothing(),
    };
    while let Some(property) = nodes.next_property() {
        let Ok(()) = contents.take(&property, size, operations) else {
            return Err(TurnFault::Memory);
        };
    }
    take_contents(referee, contents, operations)
}

/// Takes the step of a node with these contents. `operations` are those of the node's stones. The first reason that holds is given: `mixed`
/// (a move and a setup, even a faulty one), `two-moves`, `bad-setup`, which `Contents::take` found, `bad-point`, and then those of
/// `Referee::turn`. Of the arms only the last must stay last: those of `two-moves` and `bad-setup` are for nodes that aren't mixed.
#[inline(always)]
fn take_contents<'a, P: Past>(
    referee: &mut Referee<P>,
    contents: Contents<'a>,
    operations: &[SetupOp],
) -> Result<LegalStep<'a>, TurnFault>
    requires { (node : Node) × IsGathered referee.old.present.colouring.side node.properties operations.now contents }
    ensures stepped { (node : Node) → IsGathered referee.old.present.colouring.side node.properties operations.now contents.entry
        → IsStepped (step referee.old.present node) referee.old referee.new result }
    ensures told { (node : Node) → IsGathered referee.old.present.colouring.side node.properties operations.now contents.entry
        → IfOk result (IsStepOf referee.old.present.colouring.side node) }
{
    let effect = match (contents.moves, contents.setup) {
        (Moves::Nothing, Setup::Nothing) => {
            referee.stay()?;
            Effect::Nothing
        }
        (Moves::Nothing, Setup::Meant(player)) => set_up(referee, operations, player)?,
        (Moves::Nothing, Setup::Faulty) => return Err(TurnFault::Illegal(Reason::BadSetup)),
        (Moves::One(colour, raw), Setup::Nothing) => {
            let Some(play) = move_value(raw, referee.board().size()) else {
                return Err(TurnFault::Illegal(Reason::BadPoint));
            };
            referee.turn(colour, play)?;
            Effect::Play(colour, play)
        }
        (Moves::Several, Setup::Nothing) => return Err(TurnFault::Illegal(Reason::TwoMoves)),
        (_, _) => return Err(TurnFault::Illegal(Reason::Mixed)),
    };
    Ok(LegalStep {
        effect,
        comment: contents.comment,
    })
}

/// Sets up stones, or only the player if there are no stones.
// It is apart because gtp form takes 2 % more instructions if `take_contents` tells these effects apart.
fn set_up<P: Past>(
    referee: &mut Referee<P>,
    operations: &[SetupOp],
    player: Option<Colour>,
) -> Result<Effect, TurnFault>
    requires areas { All (λ op. IsRectOn referee.old.present.colouring.side op.area) operations.now }
    requires something { (0 < length operations.now) ⊎ IsSome player }
    ensures stepped { IsStepped (Ok (set_up_rule referee.old.present operations.now player)) referee.old referee.new result }
    ensures effect { IfOk result (λ effect. effect ≡ setup_effect operations.now) }
{
    referee.setup(operations, player)?;
    if operations.is_empty() {
        Ok(Effect::Nothing)
    } else {
        Ok(Effect::Stones)
    }
}
