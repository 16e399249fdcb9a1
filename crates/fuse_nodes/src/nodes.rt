//! Nodes, by the numbers by which the kernel names them.

ghost use Rattle.std.specs.Prelude.{◌≡◌, None, OnOk, OnErr, IfOk};
ghost use Rattle.fuse_nodes.specs.Changes.{spare_of};
ghost use Rattle.fuse_nodes.specs.Known.{facts_of};

use crate::node::{Descriptor, Node, NodeKind, ROOT};
use std::alloc::{AllocError, Global};
use std::collections::BTreeMap;
use talks::refused::Refused;

/// The inode of the root.
const ROOT_INODE: u16 = 1;

/// The nodes that the kernel knows, or that have handles. Their numbers count up from 2, and none is used for two nodes.
#[derive(Drop)]
pub struct Nodes {
    nodes: BTreeMap<u64, Node>,
    // The number of the node of an inode that isn't gone or is open, if it is known.
    numbers: BTreeMap<u16, u64>,
    // The number of the next node.
    next: u64,
}

impl Nodes {
    ghost use Rattle.fuse_nodes.specs.Known.{known_of, at_first, found, inode_at, seen};
    ghost use Rattle.fuse_nodes.specs.Changes.{closed, descriptor_of, dropped, forgotten, goes, let_go, lost, number_in, opened, settled};
    ghost use Rattle.fuse_nodes.specs.Changes.{closes_one, forgets, told, told_again, told_as, with_change, with_descriptor};
    ghost use Rattle.fuse_nodes.specs.Changes.{out_with_last, without_descriptor, IsSpare};

    /// The root alone; an error where no memory is found for it.
    pub fn new(alloc: Global) -> Result<Nodes, AllocError>
        ensures { IfOk result (λ nodes. known_of nodes ≡ at_first) }
    {
        let root = Node {
            inode: ROOT_INODE,
            kind: NodeKind::Directory,
            gone: false,
            lookups: 1,
            opens: 0,
            descriptor: None,
        };
        let mut nodes = BTreeMap::new(alloc);
        nodes.insert(ROOT, root)?;
        let mut numbers = BTreeMap::new(alloc);
        numbers.insert(ROOT_INODE, ROOT)?;
        Ok(Nodes {
            nodes,
            numbers,
            next: ROOT + 1,
        })
    }

    /// The node of a number; ESTALE where there is none.
    pub fn get(&self, id: u64) -> Result<&Node, Refused>
        ensures { seen result ≡ found (known_of self.now).nodes id }
    {
        match self.nodes.get(&id) {
            Some(node) => Ok(node),
            None => Err(Refused::Stale),
        }
    }

    /// The inode of a node. ESTALE where there is no such node, and where its inode may be another file's now.
    pub fn inode(&self, id: u64) -> Result<u16, Refused>
        ensures { result ≡ inode_at (known_of self.now).nodes id }
    {
        let node = self.get(id)?;
        if node.is_stale() {
            return Err(Refused::Stale);
        }
        Ok(node.inode)
    }

    /// The number of the node of an inode that isn't gone or is open, if it is known.
    pub fn of(&self, inode: u16) -> Option<u64>
        ensures { result ≡ (known_of self.now).numbers inode }
    {
        self.numbers.get(&inode).copied()
    }

    /// The kernel is told of the node of an inode by a name: its lookups are one more, and it isn't gone. Where the inode has no node, it
    /// gets one with a new number.
    ///
    /// An error: no memory was found, or all numbers are used, and all stays.
    pub fn told(&mut self, inode: u16, kind: NodeKind) -> Result<u64, AllocError>
        ensures number { IfOk result (λ id. id ≡ number_in (known_of self.old) inode) }
        ensures ok { OnOk result (known_of self.new ≡ told (known_of self.old) inode kind) }
        ensures err { OnErr result (known_of self.new ≡ known_of self.old) }
    {
        match self.of(inode) {
            Some(id) => {
                self.tell_again(id);
                Ok(id)
            }
            None => self.tell_new(inode, kind),
        }
    }

    /// A node that is known is told once more.
    fn tell_again(&mut self, id: u64)
        ensures { known_of self.new ≡ with_change told_again (known_of self.old) id }
    {
        match self.nodes.get_mut(&id) {
            Some(node) => {
                node.gone = false;
                node.lookups = node.lookups.saturating_add(1);
            }
            None => {}
        }
    }

    /// A node that isn't known is told.
    fn tell_new(&mut self, inode: u16, kind: NodeKind) -> Result<u64, AllocError>
        requires { (known_of self.old).numbers inode ≡ None }
        ensures number { IfOk result (λ id. id ≡ self.old.next) }
        ensures ok { OnOk result (known_of self.new ≡ told_as (known_of self.old) inode kind None) }
        ensures err { OnErr result (known_of self.new ≡ known_of self.old) }
    {
        let id = self.next;
        let Some(next) = id.checked_add(1) else {
            return Err(AllocError);
        };
        let node = Node {
            inode,
            kind,
            gone: false,
            lookups: 1,
            opens: 0,
            descriptor: None,
        };
        self.numbers.insert(inode, id)?;
        match self.nodes.insert(id, node) {
            Ok(_) => {
                self.next = next;
                Ok(id)
            }
            Err(_) => {
                let _ = self.numbers.remove(&inode);
                Err(AllocError)
            }
        }
    }

    /// The kernel forgets so many of a node's lookups. Where none is left and the node has neither handles nor a descriptor, it goes; the
    /// root stays.
    pub fn forget(&mut self, id: u64, count: u64)
        ensures { known_of self.new ≡ forgotten (known_of self.old) id count }
    {
        self.uncount(id, count);
        self.drop_unused(id);
    }

    /// So many of a node's lookups are forgotten.
    fn uncount(&mut self, id: u64, count: u64)
        ensures { known_of self.new ≡ with_change (forgets count) (known_of self.old) id }
    {
        match self.nodes.get_mut(&id) {
            Some(node) => node.lookups = node.lookups.saturating_sub(count),
            None => {}
        }
    }

    /// An inode has no node any more, where it has this one.
    fn let_go(&mut self, inode: u16, id: u64)
        ensures numbers { (known_of self.new).numbers ≡ let_go (known_of self.old).numbers inode id }
        ensures nodes { self.new.nodes ≡ self.old.nodes }
        ensures next { self.new.next ≡ self.old.next }
    {
        match self.of(inode) {
            Some(own) if own == id => {
                let _ = self.numbers.remove(&inode);
            }
            _ => {}
        }
    }

    /// A node goes that isn't used, with its inode's number if that is its own.
    fn drop_unused(&mut self, id: u64)
        ensures { known_of self.new ≡ dropped (known_of self.old) id }
    {
        let Some(node) = self.nodes.get(&id) else {
            return;
        };
        if id == ROOT || node.is_used() {
            return;
        }
        let inode = node.inode;
        self.let_go(inode, id);
        let _ = self.nodes.remove(&id);
    }

    /// A node has a handle more, and this descriptor, where one was opened for it; nothing where its inode may be another file's.
    pub fn opened(&mut self, id: u64, descriptor: Option<Descriptor>)
        ensures { known_of self.new ≡ opened (known_of self.old) id descriptor }
    {
        match self.nodes.get_mut(&id) {
            Some(node) if !node.is_stale() => {
                node.opens = node.opens.saturating_add(1);
                if descriptor.is_some() {
                    node.descriptor = descriptor;
                }
            }
            _ => {}
        }
    }

    /// A node has a handle less. Where it was the last one, the descriptor comes out, which is to be closed, and the node goes where the
    /// kernel has forgotten it.
    pub fn closed(&mut self, id: u64) -> Option<Descriptor>
        ensures known { known_of self.new ≡ closed (known_of self.old) id }
        ensures out { result ≡ out_with_last ((known_of self.old).nodes id) }
    {
        let descriptor = self.close_one(id);
        self.settle(id);
        self.drop_unused(id);
        descriptor
    }

    /// A node has a handle less: where it was the last one, its descriptor comes out.
    fn close_one(&mut self, id: u64) -> Option<Descriptor>
        ensures known { known_of self.new ≡ with_change closes_one (known_of self.old) id }
        ensures out { result ≡ out_with_last ((known_of self.old).nodes id) }
    {
        let Some(node) = self.nodes.get_mut(&id) else {
            return None;
        };
        node.opens = node.opens.saturating_sub(1);
        if node.opens > 0 {
            return None;
        }
        let descriptor = node.descriptor;
        node.descriptor = None;
        descriptor
    }

    /// A node's descriptor comes out, to make room for another one.
    pub fn take_descriptor(&mut self, id: u64) -> Option<Descriptor>
        ensures known { known_of self.new ≡ without_descriptor (known_of self.old) id }
        ensures out { result ≡ descriptor_of ((known_of self.old).nodes id) }
    {
        let Some(node) = self.nodes.get_mut(&id) else {
            return None;
        };
        let taken = node.descriptor;
        node.descriptor = None;
        taken
    }

    /// A node has this descriptor.
    pub fn set_descriptor(&mut self, id: u64, descriptor: Descriptor)
        ensures { known_of self.new ≡ with_descriptor (known_of self.old) id descriptor }
    {
        match self.nodes.get_mut(&id) {
            Some(node) => node.descriptor = Some(descriptor),
            None => {}
        }
    }

    /// The last name of an inode was taken from it. Its node is gone; where it isn't open, the inode has no node: the next one that is told
    /// of it is another file.
    pub fn lost(&mut self, inode: u16)
        ensures { known_of self.new ≡ lost (known_of self.old) inode }
    {
        let Some(id) = self.of(inode) else {
            return;
        };
        self.set_gone(id);
        self.settle(id);
    }

    /// A node is gone.
    fn set_gone(&mut self, id: u64)
        ensures { known_of self.new ≡ with_change goes (known_of self.old) id }
    {
        match self.nodes.get_mut(&id) {
            Some(node) => node.gone = true,
            None => {}
        }
    }

    /// A node whose inode may be another file's isn't its inode's node any more.
    fn settle(&mut self, id: u64)
        ensures { known_of self.new ≡ settled (known_of self.old) id }
    {
        let Some(node) = self.nodes.get(&id) else {
            return;
        };
        if node.is_stale() {
            let inode = node.inode;
            self.let_go(inode, id);
        }
    }

    /// The first node but this one that has a descriptor, and isn't gone: it can be opened again.
    pub fn spare(&self, but: u64) -> Option<(u64, Descriptor)>
        ensures { IsSpare (known_of self.now).nodes but result }
    {
        for (id, node) in self.nodes.iter() {
            if let Some(descriptor) = spared(*id, node, but) {
                return Some((*id, descriptor));
            }
        }
        None
    }
}

/// The descriptor of a node that can be opened again, if it isn't this one.
fn spared(id: u64, node: &Node, but: u64) -> Option<Descriptor>
    ensures { result ≡ spare_of but id (facts_of node.now) }
{
    if id == but || node.gone {
        return None;
    }
    node.descriptor
}
