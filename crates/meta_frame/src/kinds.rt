//! The table of kinds, and what is made from it: one row for each kind, with its number, its name
//! and the fields of its body in their order, each with its form.

ghost use Rattle.std.specs.Prelude.{◌≡◌, ◌++◌, ◌<◌, ◌^◌, ◌↔◌, length, Ok, IfOk, OnOk, IsTrue};
ghost use Rattle.meta_frame.specs.Frame.{is_kind, kind_of, name_of, body, IsMessage};

use crate::copies::{copy_announced, copy_carried, copy_digests, copy_keys};
use crate::message::Message;
use frame_fields::digest::DIGEST_LEN;
use frame_fields::lawful::{
    is_answer, is_digest, is_digests, is_key, is_keys, is_life, is_node, is_nodes, is_object,
    is_place, is_prefix, is_prefixes, is_priority, is_u8, is_u16, is_vector,
};
use frame_fields::lengths::{
    digests_len, key_len, keys_len, nodes_len, object_len, prefix_len, prefixes_len, vector_len,
};
use frame_fields::writing::{
    write_answer, write_digest, write_digests, write_key, write_keys, write_node, write_nodes,
    write_object, write_prefix, write_prefixes, write_priority, write_u8, write_u16, write_u32,
    write_vector,
};
use std::alloc::AllocError;

macro_rules! frame_kinds {
    ($make:ident $with:tt) => {
        $make! { $with
            1 "GOSSIP" Gossip { round: number16, key: key, object: object }
            2 "IHAVE" IHave { round: number16, key: key, vector: vector }
            3 "GRAFT" Graft { round: number16, key: key, vector: vector }
            4 "PRUNE" Prune {}
            5 "JOIN" Join {}
            6 "FORWARDJOIN" ForwardJoin { node: node, ttl: number8 }
            7 "DISCONNECT" Disconnect {}
            8 "NEIGHBOR" Neighbor { priority: priority }
            9 "NEIGHBORREPLY" NeighborReply { answer: answer }
            10 "SHUFFLE" Shuffle { origin: node, ttl: number8, nodes: nodes }
            11 "SHUFFLEREPLY" ShuffleReply { nodes: nodes }
            12 "XROOT" XRoot { root: digest }
            13 "XPREFIXES" XPrefixes { prefixes: prefixes }
            14 "XINNER" XInner { prefix: prefix, digests: digests }
            15 "XLEAVES" XLeaves { prefix: prefix, inner: place, digests: digests }
            16 "XBUCKET" XBucket { prefix: prefix, leaf: number8, keys: keys }
            17 "XOBJECT" XObject { key: key, object: object }
            18 "XWANT" XWant { key: key }
            19 "HELLO" Hello { life: life }
            20 "BYE" Bye {}
        }
    };
}

macro_rules! known_kind {
    (($kind:ident)
     $($number:literal $name:literal $variant:ident { $($field:ident : $form:ident),* })*) => {
        matches!($kind, $($number)|*)
    };
}

/// Returns whether there is such a kind.
pub(crate) fn is_known(kind: u8) -> bool
    ensures { result ≡ is_kind kind }
{
    frame_kinds!(known_kind(kind))
}

macro_rules! number_kind {
    (($message:ident)
     $($number:literal $name:literal $variant:ident { $($field:ident : $form:ident),* })*) => {
        match $message {
            $(Message::$variant { .. } => $number,)*
        }
    };
}

pub(crate) fn kind_number(message: &Message) -> u8
    ensures { result ≡ kind_of message.now }
{
    frame_kinds!(number_kind(message))
}

macro_rules! name_kind {
    (($message:ident)
     $($number:literal $name:literal $variant:ident { $($field:ident : $form:ident),* })*) => {
        match $message {
            $(Message::$variant { .. } => $name,)*
        }
    };
}

/// Returns the name of the message's kind, in capitals.
pub fn kind_name(message: &Message) -> &'static str
    ensures { result.now ≡ name_of message.now }
{
    frame_kinds!(name_kind(message))
}

macro_rules! field_fits {
    (number16 $field:ident) => {
        is_u16($field)
    };
    (number8 $field:ident) => {
        is_u8($field)
    };
    (life $field:ident) => {
        is_life($field)
    };
    (node $field:ident) => {
        is_node($field)
    };
    (priority $field:ident) => {
        is_priority($field)
    };
    (answer $field:ident) => {
        is_answer($field)
    };
    (place $field:ident) => {
        is_place($field)
    };
    (nodes $field:ident) => {
        is_nodes($field)
    };
    (digest $field:ident) => {
        is_digest($field)
    };
    (digests $field:ident) => {
        is_digests($field)
    };
    (prefix $field:ident) => {
        is_prefix($field)
    };
    (prefixes $field:ident) => {
        is_prefixes($field)
    };
    (keys $field:ident) => {
        is_keys($field)
    };
    (key $field:ident) => {
        is_key($field)
    };
    (vector $field:ident) => {
        is_vector($field)
    };
    (object $field:ident) => {
        is_object($field)
    };
}

macro_rules! kind_fits {
    (($message:ident)
     $($number:literal $name:literal $variant:ident { $($field:ident : $form:ident),* })*) => {
        match $message {
            $(Message::$variant { $($field),* } => true $(&& field_fits!($form $field))*,)*
        }
    };
}

/// Returns whether the fields of the message have a spelling.
pub(crate) fn message_fits(message: &Message) -> bool
    ensures { IsTrue result ↔ IsMessage message.now }
{
    frame_kinds!(kind_fits(message))
}

macro_rules! write_field {
    (number16 $out:ident $field:ident) => {
        write_u16($out, *$field)?
    };
    (number8 $out:ident $field:ident) => {
        write_u8($out, *$field)?
    };
    (life $out:ident $field:ident) => {
        write_u32($out, *$field)?
    };
    (node $out:ident $field:ident) => {
        write_node($out, *$field)?
    };
    (priority $out:ident $field:ident) => {
        write_priority($out, *$field)?
    };
    (answer $out:ident $field:ident) => {
        write_answer($out, *$field)?
    };
    (place $out:ident $field:ident) => {
        write_u8($out, *$field)?
    };
    (nodes $out:ident $field:ident) => {
        write_nodes($out, $field)?
    };
    (digest $out:ident $field:ident) => {
        write_digest($out, $field)?
    };
    (digests $out:ident $field:ident) => {
        write_digests($out, $field)?
    };
    (prefix $out:ident $field:ident) => {
        write_prefix($out, $field)?
    };
    (prefixes $out:ident $field:ident) => {
        write_prefixes($out, $field)?
    };
    (keys $out:ident $field:ident) => {
        write_keys($out, $field)?
    };
    (key $out:ident $field:ident) => {
        write_key($out, $field)?
    };
    (vector $out:ident $field:ident) => {
        write_vector($out, $field)?
    };
    (object $out:ident $field:ident) => {
        write_object($out, $field)?
    };
}

macro_rules! write_kind {
    (($message:ident $out:ident)
     $($number:literal $name:literal $variant:ident { $($field:ident : $form:ident),* })*) => {
        match $message {
            $(Message::$variant { $($field),* } => {
                $(write_field!($form $out $field);)*
            })*
        }
    };
}

/// Writes the body of the message.
pub(crate) fn write_message(out: &mut Vec<u8>, message: &Message) -> Result<(), AllocError>
    requires { IsMessage message.now }
    ensures { OnOk result (out.new.items ≡ out.old.items ++ body message.now) }
{
    frame_kinds!(write_kind(message out));
    Ok(())
}

macro_rules! field_len {
    (number16 $field:ident) => {
        2
    };
    (number8 $field:ident) => {
        1
    };
    (life $field:ident) => {
        4
    };
    (node $field:ident) => {
        2
    };
    (priority $field:ident) => {
        1
    };
    (answer $field:ident) => {
        1
    };
    (place $field:ident) => {
        1
    };
    (digest $field:ident) => {
        DIGEST_LEN
    };
    (nodes $field:ident) => {
        nodes_len($field)
    };
    (digests $field:ident) => {
        digests_len($field)
    };
    (prefix $field:ident) => {
        prefix_len($field)
    };
    (prefixes $field:ident) => {
        prefixes_len($field)
    };
    (keys $field:ident) => {
        keys_len($field)
    };
    (key $field:ident) => {
        key_len($field)
    };
    (vector $field:ident) => {
        vector_len($field)
    };
    (object $field:ident) => {
        object_len($field)
    };
}

macro_rules! kind_len {
    (($message:ident)
     $($number:literal $name:literal $variant:ident { $($field:ident : $form:ident),* })*) => {
        match $message {
            $(Message::$variant { $($field),* } => 0 $(+ field_len!($form $field))*,)*
        }
    };
}

pub(crate) fn body_len(message: &Message) -> usize
    requires { IsMessage message.now }
    ensures value { result ≡ length (body message.now) }
    ensures small { result < 2 ^ 48 }
{
    frame_kinds!(kind_len(message))
}

macro_rules! copy_field {
    (number16 $field:ident) => {
        *$field
    };
    (number8 $field:ident) => {
        *$field
    };
    (life $field:ident) => {
        *$field
    };
    (node $field:ident) => {
        *$field
    };
    (priority $field:ident) => {
        *$field
    };
    (answer $field:ident) => {
        *$field
    };
    (place $field:ident) => {
        *$field
    };
    (digest $field:ident) => {
        *$field
    };
    (nodes $field:ident) => {
        $field.copy()?
    };
    (digests $field:ident) => {
        $field.copy()?
    };
    (prefix $field:ident) => {
        $field.copy()?
    };
    (prefixes $field:ident) => {
        $field.copy()?
    };
    (keys $field:ident) => {
        $field.copy()?
    };
    (key $field:ident) => {
        $field.copy()?
    };
    (vector $field:ident) => {
        $field.copy()?
    };
    (object $field:ident) => {
        $field.copy()?
    };
}

macro_rules! copy_body {
    ($variant:ident { $key:ident: key, $object:ident: object }) => {{
        let ($key, $object) = copy_carried($key, $object)?;
        Message::$variant { $key, $object }
    }};
    ($variant:ident { $round:ident: number16, $key:ident: key, $object:ident: object }) => {{
        let ($key, $object) = copy_carried($key, $object)?;
        Message::$variant { $round: *$round, $key, $object }
    }};
    ($variant:ident { $round:ident: number16, $key:ident: key, $vector:ident: vector }) => {{
        let ($key, $vector) = copy_announced($key, $vector)?;
        Message::$variant { $round: *$round, $key, $vector }
    }};
    ($variant:ident { $prefix:ident: prefix, $digests:ident: digests }) => {{
        let ($prefix, $digests) = copy_digests($prefix, $digests)?;
        Message::$variant { $prefix, $digests }
    }};
    ($variant:ident { $prefix:ident: prefix, $inner:ident: place, $digests:ident: digests }) => {{
        let ($prefix, $digests) = copy_digests($prefix, $digests)?;
        Message::$variant { $prefix, $inner: *$inner, $digests }
    }};
    ($variant:ident { $prefix:ident: prefix, $leaf:ident: number8, $keys:ident: keys }) => {{
        let ($prefix, $keys) = copy_keys($prefix, $keys)?;
        Message::$variant { $prefix, $leaf: *$leaf, $keys }
    }};
    ($variant:ident { $($field:ident: $form:ident),* }) => {
        Message::$variant { $($field: copy_field!($form $field)),* }
    };
}

macro_rules! copy_kind {
    (($message:ident)
     $($number:literal $name:literal $variant:ident { $($field:ident : $form:ident),* })*) => {
        match $message {
            $(Message::$variant { $($field),* } => copy_body!($variant { $($field: $form),* }),)*
        }
    };
}

pub(crate) fn copy_message(message: &Message) -> Result<Message, AllocError>
    ensures { IfOk result (λ copy. copy ≡ message.now) }
{
    Ok(frame_kinds!(copy_kind(message)))
}
