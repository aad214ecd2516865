// The table, in fixed memory. A handle is its index.
ghost use Rattle.std.specs.Prelude.{◌≡◌, ◌<◌, length, replicate, Some, None, IfOk, IfErr, slice_set};
ghost use Rattle.errno.specs.declared.ErrorCode.TheVariants.{InsufficientSpace};
ghost use Rattle.handles.specs.declared.open.Open.TheVariants.{Free};
ghost use Rattle.handles.specs.Slots.{open_at, opened_at, directory_at, file_at, file_for, first_free, FirstFree};

use crate::file_number::FileNumber;
use crate::open::{Node, Open, Opened};
use errno::ErrorCode;
use std::marker::Model;
use types::{DescriptorFlags, Flags, Handle};

#[derive(Debug, PartialEq, Eq, Drop)]
pub struct Handles {
    pub(crate) slots: [Open; 80],
}

// Contracts see what is behind each handle, as a list.
impl Model for Handles {
    ghost use Rattle.std.specs.Prelude.{◌≡◌, List, length};
    ghost use Rattle.handles.specs.declared.open.Open.{Open as OpenOf};

    ghost Value = { List OpenOf };

    ghost view = { λ handles. handles.slots };

    ghost invariant = { λ handles. length handles.slots ≡ 80 };

    ghost inverse = { λ slots. record { slots = slots } };
}

impl Handles {
    pub fn new() -> Handles
        ensures { result ≡ replicate 80 Free }
    {
        Handles {
            slots: [Open::Free; 80],
        }
    }

    pub fn get(&self, handle: Handle) -> Open
        ensures { result ≡ open_at self.now handle.0 }
    {
        self.slots
            .get(handle.0 as usize)
            .copied()
            .unwrap_or(Open::Free)
    }

    // The file or the directory behind the handle.
    pub fn opened(&self, handle: Handle) -> Result<Opened, ErrorCode>
        ensures { result ≡ opened_at self.now handle.0 }
    {
        match self.get(handle) {
            Open::Node(opened) => Ok(opened),
            _ => Err(ErrorCode::BadDescriptor),
        }
    }

    // Here and in `file` each kind of node has an answer of its own, which a chain of adapters would not show.
    pub fn directory(&self, handle: Handle) -> Result<(), ErrorCode>
        ensures { result ≡ directory_at self.now handle.0 }
    {
        match self.opened(handle)?.node {
            Node::Directory => Ok(()),
            Node::File(_) => Err(ErrorCode::BadDescriptor),
        }
    }

    pub fn file(&self, handle: Handle) -> Result<(FileNumber, DescriptorFlags), ErrorCode>
        ensures { result ≡ file_at self.now handle.0 }
    {
        let opened = self.opened(handle)?;
        match opened.node {
            Node::File(file) => Ok((file, opened.flags)),
            Node::Directory => Err(ErrorCode::BadDescriptor),
        }
    }

    // The file behind the handle, if it was opened for what is needed.
    pub fn file_for(
        &self,
        handle: Handle,
        needed: DescriptorFlags,
    ) -> Result<(FileNumber, DescriptorFlags), ErrorCode>
        ensures { result ≡ file_for self.now handle.0 needed.0 }
    {
        let (file, flags) = self.file(handle)?;
        if !flags.contains(needed) {
            return Err(ErrorCode::BadDescriptor);
        }
        Ok((file, flags))
    }

    // What was behind the handle is there no more. A number behind all handles stays free.
    #[tactic(auto, using(std::proofs::lemmas::List::set_past))]
    pub fn put(&mut self, handle: Handle, opened: Open)
        ensures { self.new ≡ slice_set self.old handle.0 opened }
    {
        // Of a slice that was changed through `get_mut`, no proof knows the elements.
        let index = handle.0 as usize;
        if index < self.slots.len() {
            self.slots[index] = opened;
        }
    }

    pub fn first_free(&self) -> Option<Handle>
        ensures { FirstFree self.now result }
    {
        let index = self.slots.iter().position(|slot| slot.is_free())?;
        Some(Handle(index as u32))
    }

    // The first free handle, for what is to be opened.
    pub fn free_handle(&self) -> Result<Handle, ErrorCode>
        ensures ok { IfOk result (λ h. first_free self.now ≡ Some h.0) }
        ensures err { IfErr result (λ e. (e ≡ InsufficientSpace) × (first_free self.now ≡ None)) }
    {
        self.first_free().ok_or(ErrorCode::InsufficientSpace)
    }
}
