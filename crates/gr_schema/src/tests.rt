// Schemas that are made wish by wish, each refusal once, and look-ups in a small schema.
mod looked_up;
mod made;
mod refused;
