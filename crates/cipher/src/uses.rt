// What a box is for, as a type beside its state: a sealing never opens, and an opening never seals.

pub struct ToSeal;

pub struct ToOpen;
