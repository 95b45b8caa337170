//! The laws of pieces.
ghost use Rattle.piece_laws.specs.Joined.{ItemsArePieces};
ghost use Rattle.piece_laws.specs.Parts.{PartedServe};
ghost use Rattle.piece_laws.specs.Pieces.{PiecesDo};
ghost use Rattle.piece_laws.specs.Suited.{SuitsHold};

use code_laws::{
    code_valid, exchange_keeps, homes_serve, jumps_lead, lines_hold, moves_settle, template_means,
    tests_mean,
};
use ia_decode::read_is_valid;
use reg_place::places_lie;
use run_model::memory_of_bytes;
use sim_runs::{coding_gives, places_serve};

/// The pieces of a fragment do what the simulation asks of them, wherever they stand: its lines, the ways to known blocks, the
/// conditions and comparisons, and the side exits.
pub fn pieces_do()
    ensures { PiecesDo }
{
    lines_hold();
    moves_settle();
    homes_serve();
    places_lie();
    code_valid();
    template_means();
    tests_mean();
    jumps_lead();
    exchange_keeps();
    read_is_valid();
    memory_of_bytes();
    coding_gives();
}

/// The items of a fragment are those of its pieces.
pub fn items_are_pieces()
    ensures { ItemsArePieces }
{}

/// Each choice of a checked block suits.
pub fn suits_hold()
    ensures { SuitsHold }
{
    places_serve();
}

/// A choice whose split serves its block serves each block for which its block stands.
pub fn parted_serve()
    ensures { PartedServe }
{
    places_serve();
}
