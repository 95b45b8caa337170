//! Pieces of code.
use crate::item::{Dest, Item};
use ia_inst::Inst;
use std::alloc::{AllocError, Global};
use std::marker::Model;

/// A piece of code that is being written. It is seen as the list of its items, in the order in which they were put.
#[derive(Drop)]
pub struct Piece {
    items: Vec<Item>,
}

impl Model for Piece {
    ghost use Rattle.std.specs.Prelude.{List};
    ghost use Rattle.ia_encode.specs.declared.item.Item.{Item};

    ghost Value = { List Item };

    ghost view = { λ p. p.items.items };
}

impl Piece {
    ghost use Rattle.std.specs.Prelude.{◌≡◌, ◌++◌, ◌∷◌, [], IsTrue, OnOk, OnErr, map};
    ghost use Rattle.ia_inst.specs.Canonical.{valid_of};
    ghost use Rattle.ia_encode.specs.declared.item.Item.TheVariants as items;
    ghost use Rattle.ia_encode.specs.Items.{IsCondition, AreValid};

    /// No items. It takes no memory.
    pub fn new(alloc: Global) -> Piece
        ensures { result ≡ [] }
    {
        Piece {
            items: Vec::new(alloc),
        }
    }

    /// One item more. After want of memory the piece is as before.
    fn push(&mut self, item: Item) -> Result<(), AllocError>
        ensures ok { OnOk result (self.new ≡ self.old ++ item ∷ []) }
        ensures err { OnErr result (self.new ≡ self.old) }
    {
        self.items.push(item)?;
        Ok(())
    }

    /// Puts an instruction that has an encoding. After want of memory the piece is as before.
    pub fn put(&mut self, i: &Inst) -> Result<(), AllocError>
        requires { IsTrue (valid_of i.now) }
        ensures ok { OnOk result (self.new ≡ self.old ++ items.Inst i.now ∷ []) }
        ensures err { OnErr result (self.new ≡ self.old) }
    {
        self.push(Item::Inst(*i))
    }

    /// Puts bytes, each an item. After want of memory the piece is as before.
    pub fn put_bytes(&mut self, bytes: &[u8]) -> Result<(), AllocError>
        ensures ok { OnOk result (self.new ≡ self.old ++ map items.Byte bytes.now) }
        ensures err { OnErr result (self.new ≡ self.old) }
    {
        self.items.reserve(bytes.len())?;
        for byte in bytes {
            let _room = self.items.push(Item::Byte(*byte));
        }
        Ok(())
    }

    /// Puts a jump whose distance is filled in later, with a condition below 16 or none. After want of memory the piece is as
    /// before.
    pub fn jump(&mut self, cond: Option<u8>, to: Dest) -> Result<(), AllocError>
        requires { IsCondition cond }
        ensures ok { OnOk result (self.new ≡ self.old ++ items.Jump cond to ∷ []) }
        ensures err { OnErr result (self.new ≡ self.old) }
    {
        self.push(Item::Jump { cond, to })
    }

    /// Puts a label. After want of memory the piece is as before.
    pub fn label(&mut self, name: u32) -> Result<(), AllocError>
        ensures ok { OnOk result (self.new ≡ self.old ++ items.Label name ∷ []) }
        ensures err { OnErr result (self.new ≡ self.old) }
    {
        self.push(Item::Label(name))
    }

    /// Puts items, whose instructions have encodings and whose jumps have conditions. After want of memory the piece is as before.
    pub fn append(&mut self, items: &[Item]) -> Result<(), AllocError>
        requires { AreValid items.now }
        ensures ok { OnOk result (self.new ≡ self.old ++ items.now) }
        ensures err { OnErr result (self.new ≡ self.old) }
    {
        self.items.extend_from_slice(items)
    }

    /// The items, in the order in which they were put. It takes no memory.
    pub fn items(&self) -> &[Item]
        ensures { result.now ≡ self.now }
    {
        self.items.as_slice()
    }
}
